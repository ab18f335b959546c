ghost use Rattle.std.specs.Prelude.{◌≡◌, ◌+◌, ◌≤◌, ◌++◌, [], ℕ, None, length, option_to_list, MatchResult};
ghost use Rattle.mea_sem_core.specs.Calls.{Queues};
ghost use Rattle.mea_chan_core.specs.Bounded.{without_free};
ghost use Rattle.mea_chan_core.specs.Channel.{IsSenders};

use mea_base::{NoMemory, Outbox};
use mea_sem_core::{Acquire, SemCore};
use std::collections::VecDeque;
use std::mem;

/// Makes the waker ready, if there is one.
pub fn move_waker<W>(waker: &mut Option<W>, outbox: &mut Outbox<W>)
    requires { length (option_to_list waker.old) ≤ outbox.old.spare }
    ensures taken { waker.new ≡ None }
    ensures moved { outbox.new.wakers ≡ outbox.old.wakers ++ option_to_list waker.old }
    ensures spare { outbox.new.spare + length (option_to_list waker.old) ≡ outbox.old.spare }
{
    if let Some(waker) = waker.take() {
        outbox.push(waker);
    }
}

/// Moves the wakers that the semaphore has ready.
pub fn move_wakes<W: Drop>(semaphore: &mut SemCore<W>, outbox: &mut Outbox<W>)
    requires { length semaphore.old.wakes ≤ outbox.old.spare }
    ensures taken { semaphore.new ≡ record semaphore.old { wakes = [] } }
    ensures moved { outbox.new.wakers ≡ outbox.old.wakers ++ semaphore.old.wakes }
    ensures spare { outbox.new.spare + length semaphore.old.wakes ≡ outbox.old.spare }
{
    while let Some(waker) = semaphore.next_wake() {
        outbox.push(waker);
    }
}

/// Takes what is queued, with the room of the queue.
pub fn take_queued<T>(messages: &mut VecDeque<T>) -> VecDeque<T>
    ensures taken { result ≡ messages.old }
    ensures left { messages.new.items ≡ [] }
{
    let empty = VecDeque::new(*messages.allocator());
    mem::replace(messages, empty)
}

/// Puts a new acquire at the tail of the senders; the free permits are lost. Where there is no memory nothing has
/// changed: what was lost is brought back.
pub fn queue_new<W: Drop>(semaphore: &mut SemCore<W>, waker: W) -> Result<Acquire, (W, NoMemory)>
    requires { IsSenders semaphore.old }
    ensures { MatchResult result
        (λ acquire. (number : ℕ) × Queues (without_free semaphore.old) semaphore.new 1 waker number × (acquire ≡ Acquire.Queued 1 number))
        (λ e. (e.0 ≡ waker) × (semaphore.new ≡ semaphore.old)) }
{
    let lost = semaphore.forget(usize::MAX);
    let mut acquire = Acquire::new(1);
    match semaphore.poll(&mut acquire, waker) {
        Ok(_) => Ok(acquire),
        Err((waker, _)) => {
            let _ = semaphore.release(lost);
            Err((waker, NoMemory))
        }
    }
}
