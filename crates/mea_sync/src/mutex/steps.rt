ghost use Rattle.std.specs.Prelude.{◌≡◌, ◌-◌, ◌<◌, ◌≤◌, [], ◌∷◌, length, Some, None, IsSome, IfOk, IfErr, IfSome, IfNone, OnErr, MatchOption};
ghost use Rattle.std.specs.Option.{option_copied_mut};
ghost use Rattle.mea_sem_core.specs.Acquire.{renewed};
ghost use Rattle.mea_sem_core.specs.Core.{held_of};
ghost use Rattle.mea_sem_core.specs.Calls.{Belongs, Cancels, Polls, given_back};
ghost use Rattle.mea_lock_core.specs.Lock.{MayPoll, permits_of};
ghost use Rattle.mea_sync.specs.Notified.{turn_of};

use mea_base::{NoMemory, Turn};
use mea_lock_core::{LockWait, MutexCore};
use std::alloc::Global;

// What a mutex keeps behind its lock: the core, and the value while nobody holds the guard.
#[derive(Drop)]
pub(crate) struct MutexState<T, W> {
    pub(crate) lock: MutexCore<(), W>,
    pub(crate) value: Option<T>,
    ghost rests: { held_of lock.permits ≡ 0 → IsSome value },
}

impl<T: Drop, W: Drop> MutexState<T, W> {
    // A value that nobody holds.
    pub(super) fn new(alloc: Global, value: T) -> Self
        ensures value { result.value ≡ Some value }
        ensures lock { result.lock.permits ≡ permits_of 1 }
    {
        MutexState {
            lock: MutexCore::new(alloc, ()),
            value: Some(value),
        }
    }

    // The value, where no guard has it.
    pub(super) fn into_value(self) -> Option<T>
        ensures { result ≡ self.value }
    {
        let MutexState { value, .. } = self;
        value
    }

    // The value for writing, where no guard has it.
    pub(super) fn value_mut(&mut self) -> Option<&mut T>
        ensures { option_copied_mut result ≡ self.old.value }
    {
        self.value.as_mut()
    }

    // Takes the lock and the value, if nobody holds them.
    pub(super) fn try_lock(&mut self) -> Option<T>
        ensures taken { MatchOption result
            (self.new ≡ self.old)
            (λ value. (self.old.value ≡ Some value) × (held_of self.old.lock.permits ≡ 0) × (held_of self.new.lock.permits ≡ 1)) }
        ensures free { 1 ≤ self.old.lock.permits.free → IsSome result
            × (self.new.lock ≡ record self.old.lock { permits = record self.old.lock.permits { free = self.old.lock.permits.free - 1 } }) }
    {
        if self.lock.try_lock() {
            self.value.take()
        } else {
            None
        }
    }

    // Polls a wait: where it is ready, the lock is held and the value taken, and the waker comes back.
    pub(super) fn poll(
        &mut self,
        wait: &mut LockWait,
        waker: W,
    ) -> Result<Option<(T, W)>, (W, NoMemory)>
        ensures allowed { MayPoll self.old.lock wait.old → Polls self.old.lock.permits wait.old waker (turn_of result) self.new.lock.permits wait.new }
        ensures renewed { ¬ MayPoll self.old.lock wait.old → Polls self.old.lock.permits (renewed wait.old) waker (turn_of result) self.new.lock.permits wait.new }
        ensures taken { IfOk result (λ taken. MatchOption taken
            ((self.new.value ≡ self.old.value) × (held_of self.new.lock.permits ≡ held_of self.old.lock.permits))
            (λ given. (self.old.value ≡ Some given.0) × (held_of self.old.lock.permits ≡ 0) × (held_of self.new.lock.permits ≡ 1))) }
        ensures waker { IfErr result (λ e. e.0 ≡ waker) }
        ensures err { OnErr result ((self.new.lock ≡ self.old.lock) × (self.new.value ≡ self.old.value)) }
    {
        match self.lock.poll_checked(wait, waker)? {
            Turn::Ready(waker) => match self.value.take() {
                Some(value) => Ok(Some((value, waker))),
                None => unreachable!(),
            },
            Turn::Pending => Ok(None),
        }
    }

    // Puts the value back, and gives the lock to the next that waits. It tells how many wakers that made ready.
    pub(crate) fn put_back(&mut self, value: T) -> usize
        ensures value { self.new.value ≡ Some value }
        ensures allowed { 1 ≤ held_of self.old.lock.permits → self.new.lock ≡ record self.old.lock { permits = given_back self.old.lock.permits 1 } }
        ensures free { held_of self.new.lock.permits ≡ 0 }
        ensures made { result ≡ length self.new.lock.permits.wakes - length self.old.lock.permits.wakes }
    {
        let before = self.lock.wakes_ready();
        self.value = Some(value);
        self.lock.unlock_checked();
        self.lock.wakes_ready().saturating_sub(before)
    }

    // Ends a wait, and tells how many wakers that made ready.
    pub(super) fn cancel(&mut self, wait: LockWait) -> usize
        ensures allowed { Belongs self.old.lock.permits wait → Cancels self.old.lock.permits wait self.new.lock.permits }
        ensures refused { ¬ Belongs self.old.lock.permits wait → self.new.lock ≡ self.old.lock }
        ensures value { self.new.value ≡ self.old.value }
        ensures made { result ≡ length self.new.lock.permits.wakes - length self.old.lock.permits.wakes }
    {
        let before = self.lock.wakes_ready();
        self.lock.cancel_checked(wait);
        self.lock.wakes_ready().saturating_sub(before)
    }

    // Takes the first waker that is to be called.
    pub(crate) fn next_wake(&mut self) -> Option<W>
        ensures some { IfSome result (λ waker. self.old.lock ≡ record self.new.lock { permits = record self.new.lock.permits { wakes = waker ∷ self.new.lock.permits.wakes } }) }
        ensures none { IfNone result ((self.old.lock.permits.wakes ≡ []) × (self.new.lock ≡ self.old.lock)) }
        ensures value { self.new.value ≡ self.old.value }
    {
        self.lock.next_wake()
    }
}
