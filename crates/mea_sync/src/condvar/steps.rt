//! The steps of a condition variable's core that are made under its lock, and those that are made under the
//! lock of the mutex too, which is taken first. Each tells how many wakers it made ready.
ghost use Rattle.std.specs.Prelude.{◌≡◌, ◌≤◌, ◌-◌, if◌then◌else◌, length, true, false, Some, None, is_some, IsSome, IfOk, IfErr, IfSome, MatchOption, OnOk, OnErr};
ghost use Rattle.std.specs.Option.{option_or};
ghost use Rattle.mea_sem_core.specs.Core.{held_of};
ghost use Rattle.mea_lock_core.specs.Condvar.{notified_one, notified_all};
ghost use Rattle.mea_lock_core.specs.CondWaits.{is_new, renewed_wait, MayPollWait, MayEndWait, PollsWait, EndsWait};
ghost use Rattle.mea_lock_core.specs.Lock.{IsSound};
ghost use Rattle.mea_sync.specs.Notified.{turn_of};

use crate::mutex::MutexState;
use mea_base::{NoMemory, Turn};
use mea_lock_core::{CondWait, CondvarCore};

// Notifies the first that waits.
pub(super) fn notify_one<W: Drop>(core: &mut CondvarCore<W>) -> usize
    ensures is { core.new ≡ notified_one core.old }
    ensures made { result ≡ length core.new.wakes - length core.old.wakes }
{
    let before = core.wakes_ready();
    core.notify_one();
    core.wakes_ready().saturating_sub(before)
}

// Notifies each that waits.
pub(super) fn notify_all<W: Drop>(core: &mut CondvarCore<W>) -> usize
    ensures is { core.new ≡ notified_all core.old }
    ensures made { result ≡ length core.new.wakes - length core.old.wakes }
{
    let before = core.wakes_ready();
    core.notify_all();
    core.wakes_ready().saturating_sub(before)
}

// What a poll of a wait came to: the value where it is ready, and how many wakers of the mutex it made ready.
#[derive(Drop)]
pub(super) struct Polled<T, W> {
    pub(super) answer: Result<Option<(T, W)>, (W, NoMemory)>,
    pub(super) made: usize,
}

// Polls a wait. A new one has the value in `guarded`, and puts it back where its lock is given back; where
// there is no memory it keeps it.
pub(super) fn poll<T: Drop, W: Drop>(
    state: &mut MutexState<T, W>,
    core: &mut CondvarCore<W>,
    wait: &mut CondWait,
    guarded: &mut Option<T>,
    waker: W,
) -> Polled<T, W>
    requires { is_new wait.old ≡ true → IsSome guarded.old }
    ensures allowed { MayPollWait core.old state.old.lock wait.old → OnOk result.answer (PollsWait core.old state.old.lock wait.old waker (turn_of result.answer) core.new state.new.lock wait.new) }
    ensures renewed { ¬ MayPollWait core.old state.old.lock wait.old → OnOk result.answer (PollsWait core.old state.old.lock renewed_wait waker (turn_of result.answer) core.new state.new.lock wait.new) }
    ensures err { OnErr result.answer ((core.new ≡ core.old) × (state.new.lock ≡ state.old.lock)) }
    ensures kept { OnErr result.answer (MayPollWait core.old state.old.lock wait.old → wait.new ≡ wait.old) }
    ensures lost { OnErr result.answer (¬ MayPollWait core.old state.old.lock wait.old → wait.new ≡ renewed_wait) }
    ensures held { OnErr result.answer (1 ≤ held_of state.old.lock.permits → (guarded.new ≡ option_or guarded.old state.old.value) × (state.new.value ≡ None)) }
    ensures free { OnErr result.answer (held_of state.old.lock.permits ≡ 0 → (guarded.new ≡ None) × (state.new.value ≡ option_or guarded.old state.old.value)) }
    ensures guards { is_new wait.new ≡ true → IsSome guarded.new }
    ensures waker { IfErr result.answer (λ e. e.0 ≡ waker) }
    ensures ready { IfOk result.answer (λ taken. IfSome taken (λ _. state.new.value ≡ None)) }
    ensures value { IfOk result.answer (λ taken. MatchOption taken (state.new.value ≡ option_or guarded.old state.old.value) (λ given. Some given.0 ≡ option_or guarded.old state.old.value)) }
    ensures made { result.made ≡ length state.new.lock.permits.wakes - length state.old.lock.permits.wakes }
{
    let before = state.lock.wakes_ready();
    if let Some(value) = guarded.take() {
        state.value = Some(value);
    }
    let turn = core.poll_wait_checked(&mut state.lock, wait, waker);
    let made = state.lock.wakes_ready().saturating_sub(before);
    match turn {
        Ok(Turn::Ready(waker)) => match state.value.take() {
            Some(value) => Polled {
                answer: Ok(Some((value, waker))),
                made,
            },
            None => unreachable!(),
        },
        Ok(Turn::Pending) => Polled {
            answer: Ok(None),
            made,
        },
        Err(e) => {
            keep(state, wait, guarded);
            Polled {
                answer: Err(e),
                made,
            }
        }
    }
}

// Gives the value back to a wait whose poll was refused. One that does not hold the lock asks for it anew.
fn keep<T: Drop, W: Drop>(
    state: &mut MutexState<T, W>,
    wait: &mut CondWait,
    guarded: &mut Option<T>,
)
    ensures guards { is_new wait.new ≡ true → IsSome guarded.new }
    ensures held { 1 ≤ held_of state.old.lock.permits → (guarded.new ≡ state.old.value) × (state.new.value ≡ None) }
    ensures free { held_of state.old.lock.permits ≡ 0 → (guarded.new ≡ guarded.old) × (state.new.value ≡ state.old.value) }
    ensures stays { is_new wait.old ≡ false → wait.new ≡ wait.old }
    ensures new { is_new wait.old ≡ true → wait.new ≡ (if is_some guarded.new then CondWait.New else renewed_wait) }
    ensures lock { state.new.lock ≡ state.old.lock }
    ensures sound { IsSound state.new.lock }
{
    if state.lock.is_held() {
        *guarded = state.value.take();
    }
    if guarded.is_none() {
        if let CondWait::New = wait {
            wait.renew();
        }
    }
}

// Ends a wait, and tells how many wakers of the mutex and of the condition variable that made ready.
pub(super) fn end<T: Drop, W: Drop>(
    state: &mut MutexState<T, W>,
    core: &mut CondvarCore<W>,
    wait: CondWait,
    guarded: Option<T>,
) -> (usize, usize)
    requires { is_new wait ≡ true → IsSome guarded }
    ensures allowed { MayEndWait core.old state.old.lock wait → EndsWait core.old state.old.lock wait core.new state.new.lock }
    ensures refused { ¬ MayEndWait core.old state.old.lock wait → (core.new ≡ core.old) × (state.new.lock ≡ state.old.lock) }
    ensures lock { result.0 ≡ length state.new.lock.permits.wakes - length state.old.lock.permits.wakes }
    ensures room { result.1 ≡ length core.new.wakes - length core.old.wakes }
{
    let (locks, rooms) = (state.lock.wakes_ready(), core.wakes_ready());
    if let Some(value) = guarded {
        state.value = Some(value);
    }
    core.end_wait_checked(&mut state.lock, wait);
    let locked = state.lock.wakes_ready().saturating_sub(locks);
    (locked, core.wakes_ready().saturating_sub(rooms))
}
