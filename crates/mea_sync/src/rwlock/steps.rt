ghost use Rattle.std.specs.Prelude.{◌≡◌, ◌-◌, ◌+◌, ◌<◌, ◌≤◌, ◌⊎◌, [], ◌∷◌, length, Some, None, true, false, IsSome, IfOk, IfErr, IfSome, IfNone, OnOk, OnErr, MatchOption};
ghost use Rattle.std.specs.Option.{option_copied_mut};
ghost use Rattle.std.specs.Arc.{arc_value};
ghost use Rattle.mea_sem_core.specs.Core.{held_of};
ghost use Rattle.mea_sem_core.specs.Calls.{given_back};
ghost use Rattle.mea_lock_core.specs.Lock.{permits_of};
ghost use Rattle.mea_lock_core.specs.RwLock.{is_write, readers_of, renewed_rw, MayPoll, MayCancel, PollsRw, CancelsRw};
ghost use Rattle.mea_sync.specs.Notified.{turn_of};
ghost use Rattle.mea_sync.specs.Slot.{value_in};
ghost use Rattle.mea_sync.specs.Writes.{RefusesWrite};

use crate::rwlock::slot;
use mea_base::{NoMemory, Turn};
use mea_lock_core::{RwCore, RwWait};
use std::alloc::Global;
use std::sync::Arc;

// What a reader-writer lock keeps behind its lock: the core, and the value while no write is held.
#[derive(Drop)]
pub(super) struct RwLockState<T, W> {
    alloc: Global,
    lock: RwCore<(), W>,
    // The value where nobody has read since the last write, or else what each guard of a read has a share of; neither while
    // the guard of a write has it.
    owned: Option<T>,
    shared: Option<Arc<T>>,
    ghost rests: { lock.writing ≡ false → IsSome (value_in owned shared) },
}

impl<T: Drop, W: Drop> RwLockState<T, W> {
    // A value that nobody holds.
    pub(super) fn new(alloc: Global, value: T, max_readers: usize) -> Self
        requires { 0 < max_readers }
        ensures value { result.owned ≡ Some value }
        ensures lock { (result.lock.permits ≡ permits_of max_readers) × (result.lock.most ≡ max_readers) × (result.lock.writing ≡ false) }
    {
        RwLockState {
            alloc,
            lock: RwCore::new(alloc, (), max_readers),
            owned: Some(value),
            shared: None,
        }
    }

    // The value, where no guard has it.
    pub(super) fn into_value(self) -> Option<T>
        ensures value { IfSome result (λ value. value_in self.owned self.shared ≡ Some value) }
        ensures whole { IsSome self.owned → result ≡ self.owned }
    {
        let RwLockState { owned, shared, .. } = self;
        slot::into_value(owned, shared)
    }

    // The value for writing, where no guard has it or a share of it.
    pub(super) fn value_mut(&mut self) -> Option<&mut T>
        ensures value { IfSome (option_copied_mut result) (λ value. value_in self.old.owned self.old.shared ≡ Some value) }
        ensures whole { IsSome self.old.owned → option_copied_mut result ≡ self.old.owned }
    {
        slot::unshare(&mut self.owned, &mut self.shared);
        self.owned.as_mut()
    }

    // Takes a share of the value, if a permit for a read is free.
    pub(super) fn try_read(&mut self) -> Result<Option<Arc<T>>, NoMemory>
        ensures shared { IfOk result (λ shared. IfSome shared (λ arc. (value_in self.old.owned self.old.shared ≡ Some (arc_value arc))
            × (self.old.lock.writing ≡ false) × (held_of self.new.lock.permits ≡ held_of self.old.lock.permits + 1))) }
        ensures free { 1 ≤ self.old.lock.permits.free → IfOk result (λ shared. IsSome shared
            × (self.new.lock ≡ record self.old.lock { permits = record self.old.lock.permits { free = self.old.lock.permits.free - 1 } })) }
        ensures none { self.old.lock.permits.free ≡ 0 → IfOk result (λ shared. (shared ≡ None) × (self.new.lock ≡ self.old.lock)) }
        ensures err { OnErr result (self.new.lock ≡ self.old.lock) }
        ensures value { value_in self.new.owned self.new.shared ≡ value_in self.old.owned self.old.shared }
    {
        let shared = slot::share(&mut self.owned, &mut self.shared, self.alloc)?;
        if self.lock.try_read() {
            Ok(shared)
        } else {
            Ok(None)
        }
    }

    // Polls a wait for a read: where it is ready, the read is held and the value shared, and the waker comes back.
    pub(super) fn poll_read(
        &mut self,
        wait: &mut RwWait,
        waker: W,
    ) -> Result<Option<(Arc<T>, W)>, (W, NoMemory)>
        requires { is_write wait.old ≡ false }
        ensures allowed { MayPoll self.old.lock wait.old → OnOk result (PollsRw self.old.lock wait.old waker (turn_of result) self.new.lock wait.new) }
        ensures renewed { ¬ MayPoll self.old.lock wait.old → OnOk result (PollsRw self.old.lock (renewed_rw wait.old) waker (turn_of result) self.new.lock wait.new) }
        ensures shared { IfOk result (λ shared. MatchOption shared
            (held_of self.new.lock.permits ≡ held_of self.old.lock.permits)
            (λ given. (value_in self.old.owned self.old.shared ≡ Some (arc_value given.0)) × (self.old.lock.writing ≡ false)
            × (held_of self.new.lock.permits ≡ held_of self.old.lock.permits + 1))) }
        ensures kind { is_write wait.new ≡ false }
        ensures waker { IfErr result (λ e. e.0 ≡ waker) }
        ensures err { OnErr result (self.new.lock ≡ self.old.lock) }
        ensures kept { OnErr result (MayPoll self.old.lock wait.old → wait.new ≡ wait.old) }
        ensures lost { OnErr result (¬ MayPoll self.old.lock wait.old → (wait.new ≡ wait.old) ⊎ (wait.new ≡ renewed_rw wait.old)) }
        ensures value { value_in self.new.owned self.new.shared ≡ value_in self.old.owned self.old.shared }
    {
        let Ok(shared) = slot::share(&mut self.owned, &mut self.shared, self.alloc) else {
            return Err((waker, NoMemory));
        };
        match self.lock.poll_checked(wait, waker)? {
            Turn::Ready(waker) => match shared {
                Some(arc) => Ok(Some((arc, waker))),
                None => unreachable!(),
            },
            Turn::Pending => Ok(None),
        }
    }

    // Takes the value, if nobody holds the lock, and tells how many wakers are to be woken. A share that is
    // still being let go keeps it, as nobody who reads; all is then as it was.
    pub(super) fn try_write(&mut self) -> (Option<T>, usize)
        ensures taken { IfSome result.0 (λ value. (value_in self.old.owned self.old.shared ≡ Some value) × (value_in self.new.owned self.new.shared ≡ None)
            × (held_of self.old.lock.permits ≡ 0) × (self.old.lock.most ≤ self.old.lock.permits.free)
            × (self.new.lock ≡ record self.old.lock { permits = record self.old.lock.permits { free = self.old.lock.permits.free - self.old.lock.most }; writing = true })) }
        ensures none { IfNone result.0 ((value_in self.new.owned self.new.shared ≡ value_in self.old.owned self.old.shared) × (self.new.lock ≡ self.old.lock)) }
        ensures whole { IsSome self.old.owned → self.old.lock.writing ≡ false → self.old.lock.most ≤ self.old.lock.permits.free → result.0 ≡ self.old.owned }
        ensures made { result.1 ≡ length self.new.lock.permits.wakes - length self.old.lock.permits.wakes }
    {
        let before = self.lock.wakes_ready();
        let taken = if self.lock.is_writing() || !self.lock.try_write() {
            None
        } else {
            self.take_or_unlock()
        };
        (taken, self.lock.wakes_ready().saturating_sub(before))
    }

    // Polls a wait for a write: where it is ready, the write is held and the value taken, and the waker comes back. It tells how
    // many wakers are to be woken. All shares of the value go before their read is given back; where one is left
    // nonetheless, the write is given back, and the answer is that of no memory.
    pub(super) fn poll_write(
        &mut self,
        wait: &mut RwWait,
        waker: W,
    ) -> (Result<Option<(T, W)>, (W, NoMemory)>, usize)
        requires { is_write wait.old ≡ true }
        ensures allowed { MayPoll self.old.lock wait.old → OnOk result.0 (PollsRw self.old.lock wait.old waker (turn_of result.0) self.new.lock wait.new) }
        ensures renewed { ¬ MayPoll self.old.lock wait.old → OnOk result.0 (PollsRw self.old.lock (renewed_rw wait.old) waker (turn_of result.0) self.new.lock wait.new) }
        ensures taken { IfOk result.0 (λ taken. MatchOption taken
            ((value_in self.new.owned self.new.shared ≡ value_in self.old.owned self.old.shared) × (held_of self.new.lock.permits ≡ held_of self.old.lock.permits))
            (λ given. (value_in self.old.owned self.old.shared ≡ Some given.0) × (value_in self.new.owned self.new.shared ≡ None)
            × (held_of self.old.lock.permits ≡ 0) × (self.new.lock.writing ≡ true))) }
        ensures kind { is_write wait.new ≡ true }
        ensures waker { IfErr result.0 (λ e. e.0 ≡ waker) }
        ensures err { OnErr result.0 ((value_in self.new.owned self.new.shared ≡ value_in self.old.owned self.old.shared)
            × (held_of self.new.lock.permits ≡ held_of self.old.lock.permits) × (self.new.lock.writing ≡ self.old.lock.writing)) }
        ensures kept { OnErr result.0 (MayPoll self.old.lock wait.old → RefusesWrite self.old.lock wait.old waker self.new.lock wait.new) }
        ensures lost { OnErr result.0 (¬ MayPoll self.old.lock wait.old → RefusesWrite self.old.lock (renewed_rw wait.old) waker self.new.lock wait.new) }
        ensures whole { IsSome self.old.owned → OnErr result.0 (self.new.lock ≡ self.old.lock) }
        ensures made { result.1 ≡ length self.new.lock.permits.wakes - length self.old.lock.permits.wakes }
    {
        let before = self.lock.wakes_ready();
        let answer = self.take_write(wait, waker);
        (answer, self.lock.wakes_ready().saturating_sub(before))
    }

    // Polls a wait for a write, and takes the value where it is ready.
    fn take_write(&mut self, wait: &mut RwWait, waker: W) -> Result<Option<(T, W)>, (W, NoMemory)>
        requires { is_write wait.old ≡ true }
        ensures allowed { MayPoll self.old.lock wait.old → OnOk result (PollsRw self.old.lock wait.old waker (turn_of result) self.new.lock wait.new) }
        ensures renewed { ¬ MayPoll self.old.lock wait.old → OnOk result (PollsRw self.old.lock (renewed_rw wait.old) waker (turn_of result) self.new.lock wait.new) }
        ensures taken { IfOk result (λ taken. MatchOption taken
            ((value_in self.new.owned self.new.shared ≡ value_in self.old.owned self.old.shared) × (held_of self.new.lock.permits ≡ held_of self.old.lock.permits))
            (λ given. (value_in self.old.owned self.old.shared ≡ Some given.0) × (value_in self.new.owned self.new.shared ≡ None)
            × (held_of self.old.lock.permits ≡ 0) × (self.new.lock.writing ≡ true))) }
        ensures kind { is_write wait.new ≡ true }
        ensures waker { IfErr result (λ e. e.0 ≡ waker) }
        ensures err { OnErr result ((value_in self.new.owned self.new.shared ≡ value_in self.old.owned self.old.shared)
            × (held_of self.new.lock.permits ≡ held_of self.old.lock.permits) × (self.new.lock.writing ≡ self.old.lock.writing)) }
        ensures kept { OnErr result (MayPoll self.old.lock wait.old → RefusesWrite self.old.lock wait.old waker self.new.lock wait.new) }
        ensures lost { OnErr result (¬ MayPoll self.old.lock wait.old → RefusesWrite self.old.lock (renewed_rw wait.old) waker self.new.lock wait.new) }
        ensures whole { IsSome self.old.owned → OnErr result (self.new.lock ≡ self.old.lock) }
    {
        let was_writing = self.lock.is_writing();
        let Turn::Ready(waker) = self.lock.poll_checked(wait, waker)? else {
            return Ok(None);
        };
        if was_writing {
            unreachable!();
        }
        match self.take_or_unlock() {
            Some(value) => Ok(Some((value, waker))),
            None => {
                *wait = RwWait::write();
                Err((waker, NoMemory))
            }
        }
    }

    // Takes the value for a write that is held, or gives the write back where a share of the value is left.
    fn take_or_unlock(&mut self) -> Option<T>
        requires held { self.old.lock.writing ≡ true }
        requires there { IsSome (value_in self.old.owned self.old.shared) }
        ensures taken { IfSome result (λ value. (value_in self.old.owned self.old.shared ≡ Some value) × (value_in self.new.owned self.new.shared ≡ None)
            × (self.new.lock ≡ self.old.lock)) }
        ensures none { IfNone result ((value_in self.new.owned self.new.shared ≡ value_in self.old.owned self.old.shared)
            × (self.new.lock ≡ record self.old.lock { permits = given_back self.old.lock.permits self.old.lock.most; writing = false })) }
        ensures free { IfNone result (held_of self.new.lock.permits ≡ 0) }
        ensures whole { IsSome self.old.owned → result ≡ self.old.owned }
    {
        let taken = slot::take(&mut self.owned, &mut self.shared);
        if taken.is_none() {
            self.lock.unlock_write();
        }
        taken
    }

    // Ends a read, whose share of the value is gone by then. It tells how many wakers that made ready.
    pub(super) fn end_read(&mut self, shared: Arc<T>) -> usize
        ensures allowed { 1 ≤ readers_of self.old.lock → self.new.lock ≡ record self.old.lock { permits = given_back self.old.lock.permits 1 } }
        ensures refused { readers_of self.old.lock ≡ 0 → self.new.lock ≡ self.old.lock }
        ensures value { (self.new.owned ≡ self.old.owned) × (self.new.shared ≡ self.old.shared) }
        ensures made { result ≡ length self.new.lock.permits.wakes - length self.old.lock.permits.wakes }
    {
        drop(shared);
        let before = self.lock.wakes_ready();
        self.lock.unlock_read_checked();
        self.lock.wakes_ready().saturating_sub(before)
    }

    // Ends a write: the value is put back. It tells how many wakers that made ready.
    pub(super) fn end_write(&mut self, value: T) -> usize
        ensures value { value_in self.new.owned self.new.shared ≡ Some value }
        ensures allowed { self.old.lock.writing ≡ true
            → self.new.lock ≡ record self.old.lock { permits = given_back self.old.lock.permits self.old.lock.most; writing = false } }
        ensures made { result ≡ length self.new.lock.permits.wakes - length self.old.lock.permits.wakes }
    {
        let before = self.lock.wakes_ready();
        self.owned = Some(value);
        self.lock.unlock_write_checked();
        self.lock.wakes_ready().saturating_sub(before)
    }

    // Makes a write a read in one step: the value is put back as one that is shared. It tells how many wakers
    // that made ready.
    pub(super) fn downgrade(&mut self, shared: Arc<T>) -> usize
        ensures value { value_in self.new.owned self.new.shared ≡ Some (arc_value shared) }
        ensures allowed { self.old.lock.writing ≡ true
            → self.new.lock ≡ record self.old.lock { permits = given_back self.old.lock.permits (self.old.lock.most - 1); writing = false } }
        ensures made { result ≡ length self.new.lock.permits.wakes - length self.old.lock.permits.wakes }
    {
        let before = self.lock.wakes_ready();
        self.owned = None;
        self.shared = Some(shared);
        self.lock.downgrade_checked();
        self.lock.wakes_ready().saturating_sub(before)
    }

    // Ends a wait, and tells how many wakers that made ready.
    pub(super) fn cancel(&mut self, wait: RwWait) -> usize
        ensures allowed { MayCancel self.old.lock wait → CancelsRw self.old.lock wait self.new.lock }
        ensures refused { ¬ MayCancel self.old.lock wait → self.new.lock ≡ self.old.lock }
        ensures held { held_of self.new.lock.permits ≡ held_of self.old.lock.permits }
        ensures value { (self.new.owned ≡ self.old.owned) × (self.new.shared ≡ self.old.shared) }
        ensures made { result ≡ length self.new.lock.permits.wakes - length self.old.lock.permits.wakes }
    {
        let before = self.lock.wakes_ready();
        self.lock.cancel_checked(wait);
        self.lock.wakes_ready().saturating_sub(before)
    }

    // Where memory for shares comes from.
    pub(super) fn alloc(&self) -> Global {
        self.alloc
    }

    // Takes the first waker that is to be called.
    pub(super) fn next_wake(&mut self) -> Option<W>
        ensures some { IfSome result (λ waker. self.old.lock ≡ record self.new.lock { permits = record self.new.lock.permits { wakes = waker ∷ self.new.lock.permits.wakes } }) }
        ensures none { IfNone result ((self.old.lock.permits.wakes ≡ []) × (self.new.lock ≡ self.old.lock)) }
        ensures value { (self.new.owned ≡ self.old.owned) × (self.new.shared ≡ self.old.shared) }
    {
        self.lock.next_wake()
    }
}
