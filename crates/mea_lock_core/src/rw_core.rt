ghost use Rattle.std.specs.Prelude.{◌≡◌, ◌≤◌, ◌+◌, ◌-◌, ◌<◌, ◌^◌, ◌↔◌, ◌||◌, if◌then◌else◌, [], ◌∷◌, length, true, false, IsTrue, IfOk, IfSome, IfNone, OnErr};
ghost use Rattle.std.specs.Borrow.{sem};
ghost use Rattle.mea_sem_core.specs.Acquire.{demand_of};
ghost use Rattle.mea_sem_core.specs.Core.{held_of};
ghost use Rattle.mea_sem_core.specs.Calls.{Belongs, given_back};
ghost use Rattle.mea_lock_core.specs.Lock.{permits_of, IsUnready};
ghost use Rattle.mea_lock_core.specs.RwLock.{is_ready, is_write, readers_of, renewed_rw, IsHeld, IsAlone, IsSound, MayPoll, PollsFor, PollsRw, LetsIn, HoldsShare, MayCancel, CancelsRw};

use crate::rw_wait::RwWait;
use mea_base::{NoMemory, Turn};
use mea_sem_core::{Acquire, SemCore};
use std::alloc::Global;
use std::marker::Model;

/// A value that several may read or one may write: a semaphore of as many permits as there may be readers,
/// and the value. A read holds one permit and a write holds all.
///
/// It ports the state of `mea::rwlock::RwLock`.
pub struct RwCore<V, W> {
    permits: SemCore<W>,
    value: V,
    most: usize,
    // The held permits alone do not tell a write from as many reads.
    writing: bool,
}

impl<V, W> Model for RwCore<V, W> {
    ghost use Rattle.mea_lock_core.specs.RwLock.{RwLock, rw_code, IsSound};

    ghost Value = { RwLock V W };

    ghost coded = { rw_code V.code W.code };

    ghost view = { λ m. record { permits = m.permits; value = m.value; most = m.most; writing = m.writing } };

    ghost invariant = { λ m. IsSound (record { permits = m.permits; value = m.value; most = m.most; writing = m.writing }) };
}

// Written out: a derived one is proved anew in each crate that hands a value of this type to a generic function.
impl<V: Drop, W: Drop> Drop for RwCore<V, W> {
    fn drop(self) {
        let RwCore {
            permits: _,
            value: _,
            most: _,
            writing: _,
        } = self;
    }
}

// Whether a write is held after a poll.
fn writes<W>(writing: bool, write: bool, turn: &Turn<W>) -> bool
    ensures { result ≡ (writing || (if write then is_ready turn.now else false)) }
{
    writing || (write && matches!(turn, Turn::Ready(_)))
}

impl<V, W: Drop> RwCore<V, W> {
    ghost use Rattle.mea_lock_core.specs.RwLends.{lends_value};

    /// A lock that nobody holds, for at most `most` readers at a time. It takes no memory.
    pub fn new(alloc: Global, value: V, most: usize) -> Self
        requires { 0 < most }
        ensures is { result ≡ record { permits = permits_of most; value = value; most = most; writing = false } }
        ensures free { held_of result.permits ≡ 0 }
        ensures sound { IsSound result }
    {
        RwCore {
            permits: SemCore::new(alloc, most),
            value,
            most,
            writing: false,
        }
    }

    /// Polls a wait: ready with the read or the write held and the waker handed back, or pending with the
    /// waker kept until the next poll. It takes memory only where a new wait has to queue, and where there
    /// is none it hands the waker back.
    pub fn poll(&mut self, wait: &mut RwWait, waker: W) -> Result<Turn<W>, (W, NoMemory)>
        requires { MayPoll self.old wait.old }
        ensures polls { PollsRw self.old wait.old waker result self.new wait.new }
        ensures lets_in { IfOk result (λ turn. LetsIn (is_write wait.old) self.old turn) }
        ensures holds { IfOk result (λ turn. HoldsShare (is_write wait.old) self.old turn self.new) }
        ensures writes { IfOk result (λ turn. self.new.writing ≡ (self.old.writing || (if is_write wait.old then is_ready turn else false))) }
        ensures kind { is_write wait.new ≡ is_write wait.old }
        ensures err { OnErr result ((self.new ≡ self.old) × (wait.new ≡ wait.old)) }
        ensures sound { IsSound self.new }
    {
        match wait {
            RwWait::Read { acquire } => self.poll_for(false, acquire, waker),
            RwWait::NewWrite => {
                let mut acquire = Acquire::new(self.most);
                let turn = self.poll_for(true, &mut acquire, waker)?;
                *wait = RwWait::Write { acquire };
                Ok(turn)
            }
            RwWait::Write { acquire } => self.poll_for(true, acquire, waker),
        }
    }

    // Polls an acquire of one permit for a read, or of all for a write.
    #[tactic(auto, using(crate::proofs::Alone::alone_after, crate::proofs::Alone::lets_in, crate::proofs::Alone::holds_share))]
    fn poll_for(
        &mut self,
        write: bool,
        acquire: &mut Acquire,
        waker: W,
    ) -> Result<Turn<W>, (W, NoMemory)>
        requires belongs { Belongs self.old.permits acquire.old }
        requires unready { IsUnready acquire.old }
        requires demand { demand_of acquire.old ≡ (if write then self.old.most else 1) }
        ensures polls { PollsFor write self.old acquire.old waker result self.new acquire.new }
        ensures lets_in { IfOk result (λ turn. LetsIn write self.old turn) }
        ensures holds { IfOk result (λ turn. HoldsShare write self.old turn self.new) }
        ensures err { OnErr result ((self.new ≡ self.old) × (acquire.new ≡ acquire.old)) }
        ensures sound { IsSound self.new }
    {
        let turn = self.permits.poll(acquire, waker)?;
        self.writing = writes(self.writing, write, &turn);
        Ok(turn)
    }

    /// Takes a permit for a read if one is free, and tells whether it did. It takes no memory.
    #[tactic(auto, using(crate::proofs::Alone::alone_more))]
    pub fn try_read(&mut self) -> bool
        ensures taken { 1 ≤ self.old.permits.free → (result ≡ true)
            × (self.new ≡ record self.old { permits = record self.old.permits { free = self.old.permits.free - 1 } }) }
        ensures refused { self.old.permits.free ≡ 0 → (result ≡ false) × (self.new ≡ self.old) }
        ensures alone { IsTrue result → self.old.writing ≡ false }
        ensures holds { IsTrue result → held_of self.new.permits ≡ held_of self.old.permits + 1 }
        ensures sound { IsSound self.new }
    {
        self.permits.try_acquire(1)
    }

    /// Takes all permits for a write if all are free, and tells whether it did. It takes no memory.
    pub fn try_write(&mut self) -> bool
        ensures taken { self.old.most ≤ self.old.permits.free → (result ≡ true)
            × (self.new ≡ record self.old { permits = record self.old.permits { free = self.old.permits.free - self.old.most }; writing = true }) }
        ensures refused { self.old.permits.free < self.old.most → (result ≡ false) × (self.new ≡ self.old) }
        ensures alone { IsTrue result → held_of self.old.permits ≡ 0 }
        ensures holds { IsTrue result → held_of self.new.permits ≡ self.old.most }
        ensures sound { IsSound self.new }
    {
        let taken = self.permits.try_acquire(self.most);
        if taken {
            self.writing = true;
        }
        taken
    }

    /// Ends a wait: what it was paid goes to those that wait. It takes no memory.
    pub fn cancel(&mut self, wait: RwWait)
        requires { MayCancel self.old wait }
        ensures cancels { CancelsRw self.old wait self.new }
        ensures writing { self.new.writing ≡ self.old.writing }
        ensures held { held_of self.new.permits ≡ held_of self.old.permits }
        ensures sound { IsSound self.new }
    {
        match wait {
            RwWait::Read { acquire } => self.permits.cancel(acquire),
            RwWait::NewWrite => {}
            RwWait::Write { acquire } => self.permits.cancel(acquire),
        }
    }

    /// Ends the guard of a read: its permit goes to those that wait. It takes no memory.
    pub fn unlock_read(&mut self)
        requires { 1 ≤ readers_of self.old }
        ensures is { self.new ≡ record self.old { permits = given_back self.old.permits 1 } }
        ensures one_less { readers_of self.new ≡ readers_of self.old - 1 }
        ensures sound { IsSound self.new }
    {
        self.permits.give_back(1);
    }

    /// Ends the guard of a write: all permits go to those that wait. It takes no memory.
    pub fn unlock_write(&mut self)
        requires { self.old.writing ≡ true }
        ensures is { self.new ≡ record self.old { permits = given_back self.old.permits self.old.most; writing = false } }
        ensures free { held_of self.new.permits ≡ 0 }
        ensures all { held_of self.old.permits ≡ self.old.most }
        ensures sound { IsSound self.new }
    {
        self.permits.give_back(self.most);
        self.writing = false;
    }

    /// Makes the guard of a write that of a read, in one step: all permits but one go to those that wait,
    /// and no write is let in before the read has ended. It takes no memory.
    pub fn downgrade(&mut self)
        requires { self.old.writing ≡ true }
        ensures is { self.new ≡ record self.old { permits = given_back self.old.permits (self.old.most - 1); writing = false } }
        ensures one { readers_of self.new ≡ 1 }
        ensures sound { IsSound self.new }
    {
        self.permits.give_back(self.most - 1);
        self.writing = false;
    }

    /// How many reads are held, which `unlock_read` and `value` ask for. It takes no memory.
    pub fn readers(&self) -> usize
        ensures is { result ≡ readers_of self.now }
        ensures sound { IsSound self.now }
    {
        if self.writing { 0 } else { self.permits.held() }
    }

    /// Whether a write is held, which `unlock_write`, `downgrade`, `value` and `value_mut` ask for. While
    /// one is, nothing else is. It takes no memory.
    #[tactic(auto, using(crate::proofs::Alone::is_alone))]
    pub fn is_writing(&self) -> bool
        ensures is { result ≡ self.now.writing }
        ensures alone { IsTrue result → IsAlone self.now }
        ensures sound { IsSound self.now }
    {
        self.writing
    }

    /// Whether all permits are free, which `get_mut` and `into_inner` ask for. It takes no memory.
    pub fn is_idle(&self) -> bool
        ensures is { IsTrue result ↔ (self.now.permits.free ≡ self.now.most) }
        ensures sound { IsSound self.now }
    {
        self.permits.available_permits() == self.most
    }

    /// How many waits are in its queue, each with a waker. It takes no memory.
    pub fn queue_len(&self) -> usize
        ensures is { result ≡ length self.now.permits.queue }
        ensures sound { IsSound self.now }
    {
        self.permits.queue_len()
    }

    /// The value, for a guard. It takes no memory.
    pub fn value(&self) -> &V
        requires { IsHeld self.now }
        ensures { result.now ≡ self.now.value }
    {
        &self.value
    }

    /// The value for writing, for the guard of a write. It takes no memory.
    pub fn value_mut(&mut self) -> &mut V
        requires { self.old.writing ≡ true }
        ensures* writes_back { sem 𝓛 (lends_value V.row W.row self.entry result) }
        ensures value { result.now ≡ self.old.value }
    {
        &mut self.value
    }

    /// The value for writing, for who has the whole lock. It takes no memory.
    pub fn get_mut(&mut self) -> &mut V
        requires { self.old.permits.free ≡ self.old.most }
        ensures* writes_back { sem 𝓛 (lends_value V.row W.row self.entry result) }
        ensures value { result.now ≡ self.old.value }
    {
        &mut self.value
    }

    /// The value, which leaves the lock. It takes no memory.
    pub fn into_inner(self) -> V
        requires { self.permits.free ≡ self.most }
        ensures { result ≡ self.value }
    {
        self.into_inner_checked()
    }

    /// How many wakers are to be called. It takes no memory.
    pub fn wakes_ready(&self) -> usize
        ensures is { result ≡ length self.now.permits.wakes }
        ensures bound { result < 2 ^ 63 }
    {
        self.permits.wakes_ready()
    }

    /// Takes the first waker that is to be called. It takes no memory.
    pub fn next_wake(&mut self) -> Option<W>
        ensures some { IfSome result (λ waker. self.old ≡ record self.new { permits = record self.new.permits { wakes = waker ∷ self.new.permits.wakes } }) }
        ensures none { IfNone result ((self.old.permits.wakes ≡ []) × (self.new ≡ self.old)) }
        ensures sound { IsSound self.new }
    {
        self.permits.next_wake()
    }
}

/// The tests of what a call asks of the lock, and the calls in a form that asks for nothing.
impl<V, W: Drop> RwCore<V, W> {
    /// Whether the wait is one of this lock that was not ready yet, which `poll` asks for. It takes no
    /// memory.
    pub fn poll_allowed(&self, wait: &RwWait) -> bool
        ensures { IsTrue result ↔ MayPoll self.now wait.now }
    {
        match wait {
            RwWait::Read { acquire } => self.fits(acquire, 1),
            RwWait::NewWrite => true,
            RwWait::Write { acquire } => self.fits(acquire, self.most),
        }
    }

    // Whether the acquire is one of this lock for so many permits, and was not ready yet.
    fn fits(&self, acquire: &Acquire, demand: usize) -> bool
        ensures { IsTrue result ↔ (Belongs self.now.permits acquire.now × IsUnready acquire.now × (demand_of acquire.now ≡ demand)) }
    {
        match acquire {
            Acquire::Done { .. } | Acquire::Refused { .. } => false,
            Acquire::New { demand: own } => *own == demand,
            Acquire::Queued { demand: own, .. } => {
                *own == demand && self.permits.poll_allowed(acquire)
            }
        }
    }

    /// `poll`, of a wait that is renewed first where it is not one of this lock or was ready.
    pub fn poll_checked(&mut self, wait: &mut RwWait, waker: W) -> Result<Turn<W>, (W, NoMemory)>
        ensures allowed { MayPoll self.old wait.old → PollsRw self.old wait.old waker result self.new wait.new }
        ensures renewed { ¬ MayPoll self.old wait.old → PollsRw self.old (renewed_rw wait.old) waker result self.new wait.new }
        ensures lets_in { IfOk result (λ turn. LetsIn (is_write wait.old) self.old turn) }
        ensures holds { IfOk result (λ turn. HoldsShare (is_write wait.old) self.old turn self.new) }
        ensures writes { IfOk result (λ turn. self.new.writing ≡ (self.old.writing || (if is_write wait.old then is_ready turn else false))) }
        ensures kind { is_write wait.new ≡ is_write wait.old }
        ensures err { OnErr result (self.new ≡ self.old) }
        ensures sound { IsSound self.new }
    {
        if !self.poll_allowed(wait) {
            wait.renew();
        }
        self.poll(wait, waker)
    }

    /// Whether the wait is one of this lock, which `cancel` asks for. It takes no memory.
    pub fn cancel_allowed(&self, wait: &RwWait) -> bool
        ensures is { IsTrue result ↔ MayCancel self.now wait.now }
        ensures sound { IsSound self.now }
    {
        match wait {
            RwWait::Read { acquire } => self.permits.cancel_allowed(acquire),
            RwWait::NewWrite => true,
            RwWait::Write { acquire } => self.permits.cancel_allowed(acquire),
        }
    }

    /// `cancel`, which does nothing more where the wait is not one of this lock. It takes no memory.
    pub fn cancel_checked(&mut self, wait: RwWait)
        ensures allowed { MayCancel self.old wait → CancelsRw self.old wait self.new }
        ensures refused { ¬ MayCancel self.old wait → self.new ≡ self.old }
        ensures writing { self.new.writing ≡ self.old.writing }
        ensures held { held_of self.new.permits ≡ held_of self.old.permits }
        ensures sound { IsSound self.new }
    {
        if self.cancel_allowed(&wait) {
            self.cancel(wait);
        }
    }

    /// `unlock_read`, which does nothing more where no read is held. It takes no memory.
    pub fn unlock_read_checked(&mut self)
        ensures allowed { 1 ≤ readers_of self.old → self.new ≡ record self.old { permits = given_back self.old.permits 1 } }
        ensures refused { readers_of self.old ≡ 0 → self.new ≡ self.old }
        ensures writing { self.new.writing ≡ self.old.writing }
        ensures sound { IsSound self.new }
    {
        if self.readers() >= 1 {
            self.unlock_read();
        }
    }

    /// `unlock_write`, which does nothing more where no write is held. It takes no memory.
    pub fn unlock_write_checked(&mut self)
        ensures allowed { self.old.writing ≡ true → self.new ≡ record self.old { permits = given_back self.old.permits self.old.most; writing = false } }
        ensures refused { self.old.writing ≡ false → self.new ≡ self.old }
        ensures sound { IsSound self.new }
    {
        if self.is_writing() {
            self.unlock_write();
        }
    }

    /// `downgrade`, which changes nothing where no write is held. It takes no memory.
    pub fn downgrade_checked(&mut self)
        ensures allowed { self.old.writing ≡ true → self.new ≡ record self.old { permits = given_back self.old.permits (self.old.most - 1); writing = false } }
        ensures refused { self.old.writing ≡ false → self.new ≡ self.old }
        ensures sound { IsSound self.new }
    {
        if self.is_writing() {
            self.downgrade();
        }
    }

    /// `into_inner`, which asks for nothing: a lock that is not idle is taken for a new one with its
    /// value. It takes no memory.
    pub fn into_inner_checked(self) -> V
        ensures { result ≡ self.value }
    {
        let RwCore {
            permits: _,
            value,
            most: _,
            writing: _,
        } = self;
        value
    }
}
