ghost use Rattle.std.specs.Prelude.{◌≡◌, ◌≤◌, ◌-◌, ◌<◌, ◌^◌, ◌↔◌, [], ◌∷◌, length, true, false, IsTrue, IfOk, IfErr, IfSome, IfNone, OnErr};
ghost use Rattle.std.specs.Borrow.{sem};
ghost use Rattle.mea_sem_core.specs.Acquire.{renewed};
ghost use Rattle.mea_sem_core.specs.Core.{held_of};
ghost use Rattle.mea_sem_core.specs.Calls.{Belongs, Polls, Cancels, given_back};
ghost use Rattle.mea_lock_core.specs.Lock.{permits_of, MayPoll, TakesLock, IsSound};

use crate::lock_wait::LockWait;
use mea_base::{NoMemory, Turn};
use mea_sem_core::SemCore;
use std::alloc::Global;
use std::marker::Model;

/// A value that one at a time may use: a semaphore of one permit, and the value. Who holds the permit has
/// the guard.
///
/// It ports the state of `mea::mutex::Mutex`.
pub struct MutexCore<V, W> {
    permits: SemCore<W>,
    value: V,
}

impl<V, W> Model for MutexCore<V, W> {
    ghost use Rattle.mea_lock_core.specs.Lock.{Lock, lock_code, IsSound};

    ghost Value = { Lock V W };

    ghost coded = { lock_code V.code W.code };

    ghost view = { λ m. record { permits = m.permits; value = m.value } };

    ghost invariant = { λ m. IsSound (record { permits = m.permits; value = m.value }) };
}

// Written out: a derived one is proved anew in each crate that hands a value of this type to a generic function.
impl<V: Drop, W: Drop> Drop for MutexCore<V, W> {
    fn drop(self) {
        let MutexCore {
            permits: _,
            value: _,
        } = self;
    }
}

impl<V, W: Drop> MutexCore<V, W> {
    ghost use Rattle.mea_lock_core.specs.LockLends.{lends_value};

    /// A mutex that nobody holds. It takes no memory.
    pub fn new(alloc: Global, value: V) -> Self
        ensures is { result ≡ record { permits = permits_of 1; value = value } }
        ensures free { held_of result.permits ≡ 0 }
        ensures sound { IsSound result }
    {
        MutexCore {
            permits: SemCore::new(alloc, 1),
            value,
        }
    }

    /// Polls a wait: ready with the lock taken and the waker handed back, or pending with the waker kept
    /// until the next poll. It takes memory only where a new wait has to queue, and where there is none it
    /// hands the waker back.
    #[tactic(auto, using(crate::proofs::Held::takes_lock))]
    pub fn poll(&mut self, wait: &mut LockWait, waker: W) -> Result<Turn<W>, (W, NoMemory)>
        requires { MayPoll self.old wait.old }
        ensures polls { Polls self.old.permits wait.old waker result self.new.permits wait.new }
        ensures value { self.new.value ≡ self.old.value }
        ensures takes { IfOk result (λ turn. TakesLock self.old turn self.new) }
        ensures waker { IfErr result (λ e. e.0 ≡ waker) }
        ensures err { OnErr result ((self.new ≡ self.old) × (wait.new ≡ wait.old)) }
        ensures sound { IsSound self.new }
    {
        self.permits.poll(&mut wait.acquire, waker)
    }

    /// Takes the lock if its permit is free, and tells whether it did. It takes no memory.
    pub fn try_lock(&mut self) -> bool
        ensures taken { 1 ≤ self.old.permits.free → (result ≡ true) × (self.new ≡ record self.old { permits = record self.old.permits { free = self.old.permits.free - 1 } }) }
        ensures refused { self.old.permits.free ≡ 0 → (result ≡ false) × (self.new ≡ self.old) }
        ensures takes { IsTrue result → (held_of self.old.permits ≡ 0) × (held_of self.new.permits ≡ 1) }
        ensures sound { IsSound self.new }
    {
        self.permits.try_acquire(1)
    }

    /// Ends a wait: what it was paid goes to the next that waits. It takes no memory.
    pub fn cancel(&mut self, wait: LockWait)
        requires { Belongs self.old.permits wait }
        ensures cancels { Cancels self.old.permits wait self.new.permits }
        ensures value { self.new.value ≡ self.old.value }
        ensures held { held_of self.new.permits ≡ held_of self.old.permits }
        ensures sound { IsSound self.new }
    {
        self.permits.cancel(wait.acquire);
    }

    /// Ends the guard: the lock goes to the next that waits. It takes no memory.
    pub fn unlock(&mut self)
        requires { 1 ≤ held_of self.old.permits }
        ensures is { self.new ≡ record self.old { permits = given_back self.old.permits 1 } }
        ensures free { held_of self.new.permits ≡ 0 }
        ensures one { held_of self.old.permits ≡ 1 }
        ensures sound { IsSound self.new }
    {
        self.permits.give_back(1);
    }

    /// Whether the lock is held, which `unlock`, `value` and `value_mut` ask for. It takes no memory.
    pub fn is_held(&self) -> bool
        ensures is { IsTrue result ↔ (1 ≤ held_of self.now.permits) }
        ensures sound { IsSound self.now }
    {
        self.permits.held() >= 1
    }

    /// Whether the permit is free, which `get_mut` and `into_inner` ask for. It takes no memory.
    pub fn is_idle(&self) -> bool
        ensures is { IsTrue result ↔ (self.now.permits.free ≡ 1) }
        ensures sound { IsSound self.now }
    {
        self.permits.available_permits() == 1
    }

    /// How many waits are in its queue, each with a waker. It takes no memory.
    pub fn queue_len(&self) -> usize
        ensures is { result ≡ length self.now.permits.queue }
        ensures sound { IsSound self.now }
    {
        self.permits.queue_len()
    }

    /// The value, for the guard. It takes no memory.
    pub fn value(&self) -> &V
        requires { 1 ≤ held_of self.now.permits }
        ensures { result.now ≡ self.now.value }
    {
        &self.value
    }

    /// The value for writing, for the guard. It takes no memory.
    pub fn value_mut(&mut self) -> &mut V
        requires { 1 ≤ held_of self.old.permits }
        ensures* writes_back { sem 𝓛 (lends_value V.row W.row self.entry result) }
        ensures value { result.now ≡ self.old.value }
    {
        &mut self.value
    }

    /// The value for writing, for who has the whole mutex. It takes no memory.
    pub fn get_mut(&mut self) -> &mut V
        requires { self.old.permits.free ≡ 1 }
        ensures* writes_back { sem 𝓛 (lends_value V.row W.row self.entry result) }
        ensures value { result.now ≡ self.old.value }
    {
        &mut self.value
    }

    /// The value, which leaves the mutex. It takes no memory.
    pub fn into_inner(self) -> V
        requires { self.permits.free ≡ 1 }
        ensures { result ≡ self.value }
    {
        self.into_inner_checked()
    }

    /// How many wakers are to be called. It takes no memory.
    pub fn wakes_ready(&self) -> usize
        ensures is { result ≡ length self.now.permits.wakes }
        ensures bound { result < 2 ^ 63 }
    {
        self.permits.wakes_ready()
    }

    /// Takes the first waker that is to be called. It takes no memory.
    pub fn next_wake(&mut self) -> Option<W>
        ensures some { IfSome result (λ waker. self.old ≡ record self.new { permits = record self.new.permits { wakes = waker ∷ self.new.permits.wakes } }) }
        ensures none { IfNone result ((self.old.permits.wakes ≡ []) × (self.new ≡ self.old)) }
        ensures sound { IsSound self.new }
    {
        self.permits.next_wake()
    }

    /// Whether the wait is one of this mutex that was not ready yet, which `poll` asks for. It takes no
    /// memory.
    pub fn poll_allowed(&self, wait: &LockWait) -> bool
        ensures { IsTrue result ↔ MayPoll self.now wait.now }
    {
        self.permits.poll_allowed(&wait.acquire) && wait.is_unready()
    }

    /// `poll`, of a wait that is renewed first where it is not one of this mutex or was ready.
    pub fn poll_checked(&mut self, wait: &mut LockWait, waker: W) -> Result<Turn<W>, (W, NoMemory)>
        ensures allowed { MayPoll self.old wait.old → Polls self.old.permits wait.old waker result self.new.permits wait.new }
        ensures renewed { ¬ MayPoll self.old wait.old → Polls self.old.permits (renewed wait.old) waker result self.new.permits wait.new }
        ensures value { self.new.value ≡ self.old.value }
        ensures err { OnErr result (self.new ≡ self.old) }
        ensures takes { IfOk result (λ turn. TakesLock self.old turn self.new) }
        ensures sound { IsSound self.new }
    {
        if !self.poll_allowed(wait) {
            wait.renew();
        }
        self.poll(wait, waker)
    }

    /// Whether the wait is one of this mutex, which `cancel` asks for. It takes no memory.
    pub fn cancel_allowed(&self, wait: &LockWait) -> bool
        ensures is { IsTrue result ↔ Belongs self.now.permits wait.now }
        ensures sound { IsSound self.now }
    {
        self.permits.cancel_allowed(&wait.acquire)
    }

    /// `cancel`, which does nothing more where the wait is not one of this mutex. It takes no memory.
    pub fn cancel_checked(&mut self, wait: LockWait)
        ensures allowed { Belongs self.old.permits wait → Cancels self.old.permits wait self.new.permits }
        ensures refused { ¬ Belongs self.old.permits wait → self.new ≡ self.old }
        ensures value { self.new.value ≡ self.old.value }
        ensures held { held_of self.new.permits ≡ held_of self.old.permits }
        ensures sound { IsSound self.new }
    {
        if self.cancel_allowed(&wait) {
            self.cancel(wait);
        }
    }

    /// `unlock`, which does nothing more where the lock is not held. It takes no memory.
    pub fn unlock_checked(&mut self)
        ensures allowed { 1 ≤ held_of self.old.permits → self.new ≡ record self.old { permits = given_back self.old.permits 1 } }
        ensures refused { held_of self.old.permits ≡ 0 → self.new ≡ self.old }
        ensures free { held_of self.new.permits ≡ 0 }
        ensures sound { IsSound self.new }
    {
        if self.is_held() {
            self.unlock();
        }
    }

    /// `into_inner`, which asks for nothing: a mutex that is not idle is taken for a new one with its
    /// value. It takes no memory.
    pub fn into_inner_checked(self) -> V
        ensures { result ≡ self.value }
    {
        let MutexCore { permits: _, value } = self;
        value
    }
}
