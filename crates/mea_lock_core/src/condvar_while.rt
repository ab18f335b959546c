ghost use Rattle.std.specs.Prelude.{◌≡◌, ◌≤◌, ◌+◌, ◌↔◌, length, IsTrue, IsOk, IsSome, IfOk, MatchResult};
ghost use Rattle.std.specs.Fn.{CalledAtMut};
ghost use Rattle.mea_sem_core.specs.Core.{held_of};
ghost use Rattle.mea_lock_core.specs.Condvar.{IsSound, Knows, waker_under};
ghost use Rattle.mea_lock_core.specs.CondWaits.{IsWaiting, MayPollWait, HoldsLock, IsLocking, MayEndWait, EndsWait};
ghost use Rattle.mea_lock_core.specs.Notes.{condvar_of, AreNoted};
ghost use Rattle.mea_lock_core.specs.Whiles.{renewed_while, Settles, Continues, Goes, KeepsAll, PollsWhile};

use crate::cond_wait::CondWait;
use crate::condvar_core::{CondvarCore, after_lock, poll_asking};
use crate::lock_wait::LockWait;
use crate::mutex_core::MutexCore;
use crate::note::{Note, push_wait, reserve, take_out};
use crate::wait_while::WaitWhile;
use mea_base::{NoMemory, Outbox, Turn, WaitList};

// Asks the condition.
fn condition_holds<V, F: FnMut(&mut V) -> bool>(condition: &mut F, value: &mut V) -> bool
    requires { F.IsAlwaysCallable condition.old }
    ensures called { CalledAtMut F.FnMut condition.old value.old result condition.new value.new }
    ensures again { F.IsAlwaysCallable condition.new }
{
    condition(value)
}

// Who has the lock asks the condition, and goes on waiting or is done.
fn settle<V, W: Drop, F: FnMut(&mut V) -> bool>(
    waiters: &mut WaitList<Note<W>>,
    outbox: &Outbox<W>,
    lock: &mut MutexCore<V, W>,
    wait: &mut WaitWhile<F>,
    waker: W,
) -> Turn<W>
    requires held { 1 ≤ held_of lock.old.permits }
    requires place { 1 ≤ waiters.old.spare }
    requires room { length waiters.old.order + 1 ≤ outbox.now.spare }
    requires noted { AreNoted waiters.old }
    requires callable { F.IsAlwaysCallable wait.old.condition }
    ensures settles { Settles F.FnMut (condvar_of waiters.old outbox.now) lock.old wait.old.condition waker result (condvar_of waiters.new outbox.now) lock.new
        wait.new }
    ensures holds { HoldsLock result lock.new }
    ensures room { length waiters.new.order ≤ outbox.now.spare }
    ensures noted { AreNoted waiters.new }
    ensures sound { IsSound (condvar_of waiters.new outbox.now) }
    ensures callable { F.IsAlwaysCallable wait.new.condition }
{
    if !condition_holds(&mut wait.condition, lock.value_mut()) {
        wait.wait = CondWait::Done;
        return Turn::Ready(waker);
    }
    let number = push_wait(waiters, outbox, waker);
    lock.unlock();
    wait.wait = CondWait::Listed { number };
    Turn::Pending
}

// What follows a poll of the wait alone.
fn resume<V, W: Drop, F: FnMut(&mut V) -> bool>(
    waiters: &mut WaitList<Note<W>>,
    outbox: &Outbox<W>,
    lock: &mut MutexCore<V, W>,
    wait: &mut WaitWhile<F>,
    turn: Turn<W>,
) -> Turn<W>
    requires held { HoldsLock turn lock.old }
    requires place { 1 ≤ waiters.old.spare }
    requires room { length waiters.old.order + 1 ≤ outbox.now.spare }
    requires noted { AreNoted waiters.old }
    requires callable { F.IsAlwaysCallable wait.old.condition }
    ensures continues { Continues F.FnMut turn (condvar_of waiters.old outbox.now) lock.old wait.old.wait wait.old.condition result
        (condvar_of waiters.new outbox.now) lock.new wait.new }
    ensures holds { HoldsLock result lock.new }
    ensures room { length waiters.new.order ≤ outbox.now.spare }
    ensures noted { AreNoted waiters.new }
    ensures sound { IsSound (condvar_of waiters.new outbox.now) }
    ensures callable { F.IsAlwaysCallable wait.new.condition }
{
    match turn {
        Turn::Ready(waker) => settle(waiters, outbox, lock, wait, waker),
        Turn::Pending => Turn::Pending,
    }
}

/// Waits that go on while a condition on the locked value holds.
impl<W: Drop> CondvarCore<W> {
    /// Polls a wait with a condition: as `poll_wait`, but who holds the lock asks the condition, and where
    /// that answers true gives the lock back and waits again in the same poll. A new wait holds the lock.
    ///
    /// It takes memory for a wait that may have to wait again, and where the lock has to be waited for; none
    /// for one that was not notified yet. It asks for that memory before it changes anything, and where
    /// there is none it hands the waker back.
    pub fn poll_while<V, F: FnMut(&mut V) -> bool>(
        &mut self,
        lock: &mut MutexCore<V, W>,
        wait: &mut WaitWhile<F>,
        waker: W,
    ) -> Result<Turn<W>, (W, NoMemory)>
        requires may_poll { MayPollWait self.old lock.old wait.old.wait }
        requires callable { F.IsAlwaysCallable wait.old.condition }
        ensures polls { PollsWhile F.FnMut self.old lock.old wait.old waker result self.new lock.new wait.new }
        ensures waits { IsWaiting self.old wait.old.wait → IsOk result }
        ensures holds { IfOk result (λ turn. HoldsLock turn lock.new) }
        ensures callable { F.IsAlwaysCallable wait.new.condition }
        ensures sound { IsSound self.old → IsSound self.new }
    {
        match wait.wait {
            CondWait::New => self.while_new(lock, wait, waker),
            CondWait::Listed { number } => self.while_listed(lock, wait, number, waker),
            CondWait::Locking { .. } => self.while_locking(lock, wait, waker),
            CondWait::Done => unreachable!(),
        }
    }

    // The first poll, which asks the condition.
    fn while_new<V, F: FnMut(&mut V) -> bool>(
        &mut self,
        lock: &mut MutexCore<V, W>,
        wait: &mut WaitWhile<F>,
        waker: W,
    ) -> Result<Turn<W>, (W, NoMemory)>
        requires held { 1 ≤ held_of lock.old.permits }
        requires callable { F.IsAlwaysCallable wait.old.condition }
        ensures polls { MatchResult result (λ turn. Settles F.FnMut self.old lock.old wait.old.condition waker turn self.new lock.new wait.new)
            (λ e. KeepsAll F.FnMut self.old lock.old wait.old waker self.new lock.new wait.new e) }
        ensures holds { IfOk result (λ turn. HoldsLock turn lock.new) }
        ensures callable { F.IsAlwaysCallable wait.new.condition }
        ensures sound { IsSound self.old → IsSound self.new }
    {
        if reserve(&mut self.waiters, &mut self.outbox).is_err() {
            return Err((waker, NoMemory));
        }
        Ok(settle(&mut self.waiters, &self.outbox, lock, wait, waker))
    }

    // A poll of a wait that asks for the lock.
    fn while_locking<V, F: FnMut(&mut V) -> bool>(
        &mut self,
        lock: &mut MutexCore<V, W>,
        wait: &mut WaitWhile<F>,
        waker: W,
    ) -> Result<Turn<W>, (W, NoMemory)>
        requires asks { IsLocking lock.old wait.old.wait }
        requires callable { F.IsAlwaysCallable wait.old.condition }
        ensures polls { MatchResult result (λ turn. Goes F.FnMut self.old lock.old wait.old.wait wait.old.condition waker turn self.new lock.new wait.new)
            (λ e. KeepsAll F.FnMut self.old lock.old wait.old waker self.new lock.new wait.new e) }
        ensures holds { IfOk result (λ turn. HoldsLock turn lock.new) }
        ensures callable { F.IsAlwaysCallable wait.new.condition }
        ensures sound { IsSound self.old → IsSound self.new }
    {
        if reserve(&mut self.waiters, &mut self.outbox).is_err() {
            return Err((waker, NoMemory));
        }
        let turn = poll_asking(lock, &mut wait.wait, waker)?;
        Ok(resume(&mut self.waiters, &self.outbox, lock, wait, turn))
    }

    // A poll of a wait that the condition variable knows.
    fn while_listed<V, F: FnMut(&mut V) -> bool>(
        &mut self,
        lock: &mut MutexCore<V, W>,
        wait: &mut WaitWhile<F>,
        number: usize,
        waker: W,
    ) -> Result<Turn<W>, (W, NoMemory)>
        requires listed { wait.old.wait ≡ CondWait.Listed number }
        requires known { Knows self.old number }
        requires callable { F.IsAlwaysCallable wait.old.condition }
        ensures polls { MatchResult result (λ turn.
            Goes F.FnMut self.old lock.old (CondWait.Listed number) wait.old.condition waker turn self.new lock.new wait.new)
            (λ e. KeepsAll F.FnMut self.old lock.old wait.old waker self.new lock.new wait.new e) }
        ensures waits { IsSome (waker_under self.old.waiting number) → IsOk result }
        ensures holds { IfOk result (λ turn. HoldsLock turn lock.new) }
        ensures callable { F.IsAlwaysCallable wait.new.condition }
        ensures sound { IsSound self.old → IsSound self.new }
    {
        let Some(by_one) = self.waiters.get(number).notified() else {
            *self.waiters.get_mut(number) = Note::Waiting(waker);
            return Ok(Turn::Pending);
        };
        if reserve(&mut self.waiters, &mut self.outbox).is_err() {
            return Err((waker, NoMemory));
        }
        let mut asks = LockWait::new();
        let turn = lock.poll(&mut asks, waker)?;
        let _ = take_out(&mut self.waiters, number);
        wait.wait = after_lock(by_one, &turn, asks);
        Ok(resume(&mut self.waiters, &self.outbox, lock, wait, turn))
    }

    /// Ends a wait with a condition in any of its stages, as `end_wait` does. It takes no memory.
    pub fn end_while<V, F: Drop>(&mut self, lock: &mut MutexCore<V, W>, wait: WaitWhile<F>)
        requires { MayEndWait self.old lock.old wait.wait }
        ensures ends { EndsWait self.old lock.old wait.wait self.new lock.new }
        ensures sound { IsSound self.old → IsSound self.new }
    {
        self.end_wait(lock, wait.wait);
    }

    /// Whether the wait is one of this condition variable and this lock that was not ready yet, which
    /// `poll_while` asks for. It takes no memory.
    pub fn poll_while_allowed<V, F>(&self, lock: &MutexCore<V, W>, wait: &WaitWhile<F>) -> bool
        ensures { IsTrue result ↔ MayPollWait self.now lock.now wait.now.wait }
    {
        self.poll_wait_allowed(lock, &wait.wait)
    }

    /// `poll_while`, of a wait that is renewed first where it may not be polled.
    pub fn poll_while_checked<V, F: FnMut(&mut V) -> bool>(
        &mut self,
        lock: &mut MutexCore<V, W>,
        wait: &mut WaitWhile<F>,
        waker: W,
    ) -> Result<Turn<W>, (W, NoMemory)>
        requires { F.IsAlwaysCallable wait.old.condition }
        ensures allowed { MayPollWait self.old lock.old wait.old.wait → PollsWhile F.FnMut self.old lock.old wait.old waker result self.new lock.new wait.new }
        ensures renewed { ¬ MayPollWait self.old lock.old wait.old.wait
            → PollsWhile F.FnMut self.old lock.old (renewed_while wait.old) waker result self.new lock.new wait.new }
        ensures waits { IsWaiting self.old wait.old.wait → IsOk result }
        ensures holds { IfOk result (λ turn. HoldsLock turn lock.new) }
        ensures callable { F.IsAlwaysCallable wait.new.condition }
        ensures sound { IsSound self.old → IsSound self.new }
    {
        if !self.poll_while_allowed(lock, wait) {
            wait.renew();
        }
        self.poll_while(lock, wait, waker)
    }

    /// Whether the wait is one of this condition variable and this lock, which `end_while` asks for. It
    /// takes no memory.
    pub fn end_while_allowed<V, F>(&self, lock: &MutexCore<V, W>, wait: &WaitWhile<F>) -> bool
        ensures { IsTrue result ↔ MayEndWait self.now lock.now wait.now.wait }
    {
        self.end_wait_allowed(lock, &wait.wait)
    }

    /// `end_while`, which does nothing more where the wait may not be ended. It takes no memory.
    pub fn end_while_checked<V, F: Drop>(&mut self, lock: &mut MutexCore<V, W>, wait: WaitWhile<F>)
        ensures allowed { MayEndWait self.old lock.old wait.wait → EndsWait self.old lock.old wait.wait self.new lock.new }
        ensures refused { ¬ MayEndWait self.old lock.old wait.wait → (self.new ≡ self.old) × (lock.new ≡ lock.old) }
        ensures sound { IsSound self.old → IsSound self.new }
    {
        self.end_wait_checked(lock, wait.wait);
    }
}
