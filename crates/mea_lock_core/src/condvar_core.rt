ghost use Rattle.std.specs.Prelude.{◌≡◌, ◌<◌, ◌≤◌, ◌^◌, ◌↔◌, [], ◌∷◌, length, IsTrue, IsSome, Bool, Some, false, IfOk, IfErr, IfSome, IfNone, OnOk, OnErr};
ghost use Rattle.std.specs.FinMap as map;
ghost use Rattle.mea_sem_core.specs.Core.{held_of};
ghost use Rattle.mea_lock_core.specs.Condvar.{notified_one, notified_all, waker_under, with_waker, without_wait, IsSound, Knows, Lists};
ghost use Rattle.mea_lock_core.specs.CondWaits.{renewed_wait, after_lock, MayPollWait, Enters, PollsListed, PollsWait, HoldsLock, FindsFree, StaysHeld, is_new, IsLocking, PollsAsking, MayEndWait, EndsListed, EndsWait};

use crate::cond_wait::CondWait;
use crate::lock_wait::LockWait;
use crate::mutex_core::MutexCore;
use crate::note::{Note, notify_each, notify_first, pass_on, push_wait, reserve, take_out};
use mea_base::{NoMemory, Outbox, Turn, WaitList};
use std::alloc::Global;
use std::marker::Model;

/// A condition variable: those that wait to be notified, in the order in which they began to.
///
/// A wait keeps its number from the poll that gives the lock back to the first poll after its notification,
/// which asks for the lock again. Room for the waker of each wait is reserved when it begins to wait, so
/// that to notify takes no memory. It ports the state of `mea::condvar::Condvar`.
pub struct CondvarCore<W> {
    pub(crate) waiters: WaitList<Note<W>>,
    pub(crate) outbox: Outbox<W>,
}

impl<W> Model for CondvarCore<W> {
    ghost use Rattle.std.specs.Prelude.{◌≤◌, length};
    ghost use Rattle.mea_lock_core.specs.Condvar.{Condvar, condvar_code};
    ghost use Rattle.mea_lock_core.specs.Notes.{condvar_of, AreNoted};

    ghost Value = { Condvar W };

    ghost coded = { condvar_code W.code };

    ghost view = { λ c. condvar_of c.waiters c.outbox };

    ghost invariant = { λ c. record {
      room : length c.waiters.order ≤ c.outbox.spare;
      noted : AreNoted c.waiters;
    } };
}

// Written out: a derived one is proved anew in each crate that hands a value of this type to a generic function.
impl<W: Drop> Drop for CondvarCore<W> {
    fn drop(self) {
        let CondvarCore {
            waiters: _,
            outbox: _,
        } = self;
    }
}

// The stage after a poll of the lock.
pub(crate) fn after_lock<W>(by_one: bool, turn: &Turn<W>, wait: LockWait) -> CondWait
    ensures { result ≡ after_lock by_one turn.now wait }
{
    match turn {
        Turn::Ready(_) => CondWait::Done,
        Turn::Pending => CondWait::Locking { by_one, wait },
    }
}

// Polls a wait that was notified, and asks for the lock.
pub(crate) fn poll_asking<V, W: Drop>(
    lock: &mut MutexCore<V, W>,
    wait: &mut CondWait,
    waker: W,
) -> Result<Turn<W>, (W, NoMemory)>
    requires { IsLocking lock.old wait.old }
    ensures polls { PollsAsking lock.old wait.old waker result lock.new wait.new }
    ensures holds { IfOk result (λ turn. HoldsLock turn lock.new) }
    ensures finds { IfOk result (λ turn. FindsFree turn lock.old) }
    ensures stays { IfOk result (λ turn. StaysHeld turn lock.old lock.new) }
    ensures polled { OnOk result (is_new wait.new ≡ false) }
    ensures waker { IfErr result (λ e. e.0 ≡ waker) }
    ensures err { OnErr result ((lock.new ≡ lock.old) × (wait.new ≡ wait.old)) }
{
    let CondWait::Locking { wait: asks, .. } = wait else {
        unreachable!();
    };
    let turn = lock.poll(asks, waker)?;
    if let Turn::Ready(_) = turn {
        *wait = CondWait::Done;
    }
    Ok(turn)
}

impl<W: Drop> CondvarCore<W> {
    /// A condition variable that nobody waits on. It takes no memory.
    pub fn new(alloc: Global) -> Self
        ensures is { result ≡ record { waiting = []; notified = map.empty; wakes = [] } }
        ensures sound { IsSound result }
    {
        CondvarCore {
            waiters: WaitList::new(alloc),
            outbox: Outbox::new(alloc),
        }
    }

    /// Notifies the first that waits, if any does. It takes no memory.
    pub fn notify_one(&mut self)
        ensures is { self.new ≡ notified_one self.old }
        ensures sound { IsSound self.new }
    {
        notify_first(&mut self.waiters, &mut self.outbox, true);
    }

    /// Notifies each that waits, in their order. It takes no memory.
    pub fn notify_all(&mut self)
        ensures is { self.new ≡ notified_all self.old }
        ensures sound { IsSound self.new }
    {
        notify_each(&mut self.waiters, &mut self.outbox);
    }

    /// Polls a wait. A new one gives the lock back and waits; one that waits keeps the new waker; one that
    /// was notified asks for the lock, and is ready once it holds it, with the waker handed back.
    ///
    /// It takes memory for a new wait, and where the lock has to be waited for. It asks for that memory
    /// before it changes anything, and where there is none it hands the waker back.
    pub fn poll_wait<V>(
        &mut self,
        lock: &mut MutexCore<V, W>,
        wait: &mut CondWait,
        waker: W,
    ) -> Result<Turn<W>, (W, NoMemory)>
        requires { MayPollWait self.old lock.old wait.old }
        ensures polls { PollsWait self.old lock.old wait.old waker result self.new lock.new wait.new }
        ensures holds { IfOk result (λ turn. HoldsLock turn lock.new) }
        ensures finds { IfOk result (λ turn. FindsFree turn lock.old) }
        ensures stays { is_new wait.old ≡ false → IfOk result (λ turn. StaysHeld turn lock.old lock.new) }
        ensures waker { IfErr result (λ e. e.0 ≡ waker) }
        ensures polled { OnOk result (is_new wait.new ≡ false) }
        ensures unchanged { OnErr result ((self.new ≡ self.old) × (lock.new ≡ lock.old)) }
        ensures sound { IsSound self.old → IsSound self.new }
    {
        match wait {
            CondWait::New => self.enter(lock, wait, waker),
            CondWait::Listed { number } => {
                let number = *number;
                self.poll_listed(lock, wait, number, waker)
            }
            CondWait::Locking { .. } => poll_asking(lock, wait, waker),
            CondWait::Done => unreachable!(),
        }
    }

    // The first poll: the wait is listed, and the lock given back.
    fn enter<V>(
        &mut self,
        lock: &mut MutexCore<V, W>,
        wait: &mut CondWait,
        waker: W,
    ) -> Result<Turn<W>, (W, NoMemory)>
        requires held { 1 ≤ held_of lock.old.permits }
        requires new { wait.old ≡ CondWait.New }
        ensures enters { Enters self.old lock.old waker result self.new lock.new wait.new }
        ensures holds { IfOk result (λ turn. HoldsLock turn lock.new) }
        ensures finds { IfOk result (λ turn. FindsFree turn lock.old) }
        ensures waker { IfErr result (λ e. e.0 ≡ waker) }
        ensures polled { OnOk result (is_new wait.new ≡ false) }
        ensures unchanged { OnErr result ((self.new ≡ self.old) × (lock.new ≡ lock.old)) }
        ensures sound { IsSound self.old → IsSound self.new }
    {
        if reserve(&mut self.waiters, &mut self.outbox).is_err() {
            return Err((waker, NoMemory));
        }
        let number = push_wait(&mut self.waiters, &self.outbox, waker);
        lock.unlock();
        *wait = CondWait::Listed { number };
        Ok(Turn::Pending)
    }

    // A poll of a wait that the condition variable knows.
    fn poll_listed<V>(
        &mut self,
        lock: &mut MutexCore<V, W>,
        wait: &mut CondWait,
        number: usize,
        waker: W,
    ) -> Result<Turn<W>, (W, NoMemory)>
        requires listed { wait.old ≡ CondWait.Listed number }
        requires known { Knows self.old number }
        ensures polls { PollsListed self.old lock.old number waker result self.new lock.new wait.new }
        ensures holds { IfOk result (λ turn. HoldsLock turn lock.new) }
        ensures finds { IfOk result (λ turn. FindsFree turn lock.old) }
        ensures stays { IfOk result (λ turn. StaysHeld turn lock.old lock.new) }
        ensures waker { IfErr result (λ e. e.0 ≡ waker) }
        ensures polled { OnOk result (is_new wait.new ≡ false) }
        ensures unchanged { OnErr result ((self.new ≡ self.old) × (lock.new ≡ lock.old)) }
        ensures sound { IsSound self.old → IsSound self.new }
    {
        let Some(by_one) = self.waiters.get(number).notified() else {
            *self.waiters.get_mut(number) = Note::Waiting(waker);
            return Ok(Turn::Pending);
        };
        let mut asks = LockWait::new();
        let turn = lock.poll(&mut asks, waker)?;
        let _ = take_out(&mut self.waiters, number);
        *wait = after_lock(by_one, &turn, asks);
        Ok(turn)
    }

    /// Ends a wait in any of its stages. A new one gives the lock back; one that was notified alone passes
    /// that on to the next that waits. It takes no memory.
    pub fn end_wait<V>(&mut self, lock: &mut MutexCore<V, W>, wait: CondWait)
        requires { MayEndWait self.old lock.old wait }
        ensures ends { EndsWait self.old lock.old wait self.new lock.new }
        ensures stays { is_new wait ≡ false → held_of lock.new.permits ≡ held_of lock.old.permits }
        ensures sound { IsSound self.old → IsSound self.new }
    {
        match wait {
            CondWait::New => lock.unlock(),
            CondWait::Listed { number } => self.end_listed(number),
            CondWait::Locking { by_one, wait: asks } => {
                lock.cancel(asks);
                if by_one {
                    self.notify_one();
                }
            }
            CondWait::Done => {}
        }
    }

    /// Lists a wait that gives its lock back, and tells its number. It asks for memory before it changes anything,
    /// and where there is none it hands the waker back.
    pub fn list(&mut self, waker: W) -> Result<usize, (W, NoMemory)>
        ensures lists { IfOk result (λ number. Lists self.old self.new number waker) }
        ensures waker { IfErr result (λ e. e.0 ≡ waker) }
        ensures err { OnErr result (self.new ≡ self.old) }
        ensures sound { IsSound self.old → IsSound self.new }
    {
        if reserve(&mut self.waiters, &mut self.outbox).is_err() {
            return Err((waker, NoMemory));
        }
        Ok(push_wait(&mut self.waiters, &self.outbox, waker))
    }

    /// Gives a wait that waits another waker. It takes no memory.
    pub fn rewake(&mut self, number: usize, waker: W)
        requires { IsSome (waker_under self.old.waiting number) }
        ensures is { self.new ≡ record self.old { waiting = with_waker self.old.waiting number waker } }
        ensures sound { IsSound self.old → IsSound self.new }
    {
        *self.waiters.get_mut(number) = Note::Waiting(waker);
    }

    /// Whether a wait that is listed waits, and was not notified yet. It takes no memory.
    pub fn is_waiting(&self, number: usize) -> bool
        requires { Knows self.now number }
        ensures waits { IsTrue result ↔ IsSome (waker_under self.now.waiting number) }
        ensures sound { IsSound self.now }
    {
        self.waiters.get(number).waits()
    }

    /// Takes a listed wait out, and tells whether it was notified alone. Nobody is notified in its place. It takes
    /// no memory.
    pub fn unlist(&mut self, number: usize) -> bool
        requires { Knows self.old number }
        ensures waited { IsSome (waker_under self.old.waiting number) → (result ≡ false) × (self.new ≡ record self.old { waiting = without_wait self.old.waiting number }) }
        ensures notified { (by_one : Bool) → map.get self.old.notified number ≡ Some by_one → (result ≡ by_one) × (self.new ≡ record self.old { notified = map.remove self.old.notified number }) }
        ensures sound { IsSound self.old → IsSound self.new }
    {
        take_out(&mut self.waiters, number).is_by_one()
    }

    // The end of a wait that the condition variable knows.
    fn end_listed(&mut self, number: usize)
        requires { Knows self.old number }
        ensures ends { EndsListed self.old number self.new }
        ensures sound { IsSound self.old → IsSound self.new }
    {
        let note = take_out(&mut self.waiters, number);
        pass_on(&mut self.waiters, &mut self.outbox, note.is_by_one());
    }

    /// How many wait to be notified. It takes no memory.
    pub fn queue_len(&self) -> usize
        ensures is { result ≡ length self.now.waiting }
        ensures sound { IsSound self.now }
    {
        self.waiters.len()
    }

    /// How many wakers are to be called. It takes no memory.
    pub fn wakes_ready(&self) -> usize
        ensures is { result ≡ length self.now.wakes }
        ensures bound { result < 2 ^ 63 }
        ensures sound { IsSound self.now }
    {
        self.outbox.len()
    }

    /// Takes the first waker that is to be called. It takes no memory.
    pub fn next_wake(&mut self) -> Option<W>
        ensures some { IfSome result (λ waker. self.old ≡ record self.new { wakes = waker ∷ self.new.wakes }) }
        ensures none { IfNone result ((self.old.wakes ≡ []) × (self.new ≡ self.old)) }
        ensures sound { IsSound self.old → IsSound self.new }
    {
        self.outbox.pop()
    }

    // Whether the number waits or was notified.
    fn knows(&self, number: usize) -> bool
        ensures { IsTrue result ↔ Knows self.now number }
    {
        self.waiters.is_in_use(number)
    }

    /// Whether the wait is one of this condition variable and this lock that was not ready yet, which
    /// `poll_wait` asks for. It takes no memory.
    pub fn poll_wait_allowed<V>(&self, lock: &MutexCore<V, W>, wait: &CondWait) -> bool
        ensures { IsTrue result ↔ MayPollWait self.now lock.now wait.now }
    {
        match wait {
            CondWait::New => lock.is_held(),
            CondWait::Listed { number } => self.knows(*number),
            CondWait::Locking { wait, .. } => lock.poll_allowed(wait),
            CondWait::Done => false,
        }
    }

    /// `poll_wait`, of a wait that is renewed first where it may not be polled.
    pub fn poll_wait_checked<V>(
        &mut self,
        lock: &mut MutexCore<V, W>,
        wait: &mut CondWait,
        waker: W,
    ) -> Result<Turn<W>, (W, NoMemory)>
        ensures allowed { MayPollWait self.old lock.old wait.old → PollsWait self.old lock.old wait.old waker result self.new lock.new wait.new }
        ensures renewed { ¬ MayPollWait self.old lock.old wait.old → PollsWait self.old lock.old renewed_wait waker result self.new lock.new wait.new }
        ensures holds { IfOk result (λ turn. HoldsLock turn lock.new) }
        ensures finds { IfOk result (λ turn. FindsFree turn lock.old) }
        ensures stays { is_new wait.old ≡ false → IfOk result (λ turn. StaysHeld turn lock.old lock.new) }
        ensures waker { IfErr result (λ e. e.0 ≡ waker) }
        ensures polled { OnOk result (is_new wait.new ≡ false) }
        ensures unchanged { OnErr result ((self.new ≡ self.old) × (lock.new ≡ lock.old)) }
        ensures sound { IsSound self.old → IsSound self.new }
    {
        if !self.poll_wait_allowed(lock, wait) {
            wait.renew();
        }
        self.poll_wait(lock, wait, waker)
    }

    /// Whether the wait is one of this condition variable and this lock, which `end_wait` asks for. It
    /// takes no memory.
    pub fn end_wait_allowed<V>(&self, lock: &MutexCore<V, W>, wait: &CondWait) -> bool
        ensures { IsTrue result ↔ MayEndWait self.now lock.now wait.now }
    {
        match wait {
            CondWait::New => lock.is_held(),
            CondWait::Listed { number } => self.knows(*number),
            CondWait::Locking { wait, .. } => lock.cancel_allowed(wait),
            CondWait::Done => true,
        }
    }

    /// `end_wait`, which does nothing more where the wait may not be ended. It takes no memory.
    pub fn end_wait_checked<V>(&mut self, lock: &mut MutexCore<V, W>, wait: CondWait)
        ensures allowed { MayEndWait self.old lock.old wait → EndsWait self.old lock.old wait self.new lock.new }
        ensures refused { ¬ MayEndWait self.old lock.old wait → (self.new ≡ self.old) × (lock.new ≡ lock.old) }
        ensures stays { is_new wait ≡ false → held_of lock.new.permits ≡ held_of lock.old.permits }
        ensures sound { IsSound self.old → IsSound self.new }
    {
        if self.end_wait_allowed(lock, &wait) {
            self.end_wait(lock, wait);
        }
    }
}
