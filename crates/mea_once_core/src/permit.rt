ghost use Rattle.std.specs.Prelude.{◌≡◌, ◌+◌, ◌<◌, ◌≤◌, ◌^◌, ◌↔◌, [], ◌∷◌, ◌++◌, length, IsTrue, IfOk, IfSome, IfNone, OnErr};
ghost use Rattle.mea_sem_core.specs.Core.{held_of};
ghost use Rattle.mea_once_core.specs.Permit.{HoldsAs, held_at, IsPermit, IsNext, asks_more, MayAsk, MayPoll, MayEnd, Asks, TakesPermit, Leaves, passed_on, free_permit};

use crate::cell_stage::CellStage;
use mea_base::{NoMemory, Outbox, Turn};
use mea_sem_core::{Acquire, SemCore};
use std::alloc::Global;
use std::marker::Model;

// One permit that is handed from caller to caller: a semaphore of one, each of whose acquires asks for one.
pub(crate) struct Permit<W> {
    sem: SemCore<W>,
}

impl<W> Model for Permit<W> {
    ghost use Rattle.mea_sem_core.specs.Core.{Core, core_code};
    ghost use Rattle.mea_once_core.specs.Permit.{IsPermit};

    ghost Value = { Core W };

    ghost coded = { core_code W.code };

    ghost view = { λ p. p.sem };

    ghost invariant = { λ p. IsPermit p.sem };
}

// Written out: a derived one is proved anew in each crate that hands a value of this type to a generic function.
impl<W: Drop> Drop for Permit<W> {
    fn drop(self) {
        let Permit { sem: _ } = self;
    }
}

impl<W: Drop> Permit<W> {
    // A permit that nobody has. It takes no memory.
    pub(crate) fn new(alloc: Global) -> Self
        ensures is { result ≡ free_permit }
        ensures free { held_of result ≡ 0 }
        ensures sound { IsPermit result }
    {
        Permit {
            sem: SemCore::new(alloc, 1),
        }
    }

    // Asks for the permit: ready with it and the waker, or pending with the waker kept until the next poll.
    // It takes memory only where a new call has to queue; where there is none nothing has changed.
    pub(crate) fn ask(&mut self, stage: &mut CellStage, waker: W) -> Result<Turn<W>, (W, NoMemory)>
        requires { MayAsk self.old stage.old }
        ensures asks { Asks self.old stage.old waker result self.new stage.new }
        ensures takes { IfOk result (λ turn. TakesPermit self.old turn self.new) }
        ensures held { HoldsAs self.old stage.old self.new stage.new }
        ensures few { length self.new.queue + length self.new.wakes ≤ length self.old.queue + length self.old.wakes + asks_more self.old stage.old }
        ensures no_memory { OnErr result (asks_more self.old stage.old ≡ 1) }
        ensures err { OnErr result ((self.new ≡ self.old) × (stage.new ≡ stage.old)) }
        ensures sound { IsPermit self.new }
    {
        let mut acquire = stage.acquire();
        let turn = self.sem.poll(&mut acquire, waker)?;
        *stage = CellStage::after(acquire);
        Ok(turn)
    }

    // The permit goes to the next that waits. It takes no memory.
    pub(crate) fn pass_on(&mut self)
        requires { 1 ≤ held_of self.old }
        ensures is { self.new ≡ passed_on self.old }
        ensures free { held_of self.new ≡ 0 }
        ensures few { length self.new.queue + length self.new.wakes ≤ length self.old.queue + length self.old.wakes }
        ensures sound { IsPermit self.new }
    {
        self.sem.give_back(1);
    }

    // Ends a call: it gives up its place, or the permit, which goes to the next. It takes no memory.
    pub(crate) fn leave(&mut self, stage: CellStage)
        requires { MayEnd self.old stage }
        ensures leaves { Leaves self.old stage self.new }
        ensures held { held_of self.new + held_at stage ≡ held_of self.old }
        ensures few { length self.new.queue + length self.new.wakes ≤ length self.old.queue + length self.old.wakes }
        ensures sound { IsPermit self.new }
    {
        let _ = self.is_free();
        match stage {
            CellStage::New | CellStage::Done => {}
            CellStage::Queued { number } => self.sem.cancel(Acquire::Queued { demand: 1, number }),
            CellStage::Running => self.pass_on(),
        }
    }

    // Whether nobody has the permit, and nobody waits for it. It takes no memory.
    pub(crate) fn is_free(&self) -> bool
        ensures is { IsTrue result ↔ (self.now.free ≡ 1) }
        ensures sound { IsPermit self.now }
    {
        self.sem.available_permits() == 1
    }

    // Whether a caller has the permit. It takes no memory.
    pub(crate) fn is_held(&self) -> bool
        ensures is { IsTrue result ↔ (1 ≤ held_of self.now) }
        ensures sound { IsPermit self.now }
    {
        self.sem.held() >= 1
    }

    // Whether the turn of the call with this number has come. It takes no memory.
    pub(crate) fn is_next(&self, number: usize) -> bool
        ensures { IsTrue result ↔ IsNext self.now number }
    {
        self.sem.is_granted(&Acquire::Queued { demand: 1, number })
    }

    // Whether the call is one of this permit's that was not ready yet, as a poll asks. It takes no memory.
    pub(crate) fn may_poll(&self, stage: CellStage) -> bool
        ensures { IsTrue result ↔ MayPoll self.now stage }
    {
        match stage {
            CellStage::New => true,
            CellStage::Queued { .. } => self.sem.poll_allowed(&stage.acquire()),
            CellStage::Running => self.is_held(),
            CellStage::Done => false,
        }
    }

    // Whether the call is one of this permit's, as its end asks. It takes no memory.
    pub(crate) fn may_end(&self, stage: CellStage) -> bool
        ensures { IsTrue result ↔ MayEnd self.now stage }
    {
        match stage {
            CellStage::New | CellStage::Done => true,
            CellStage::Queued { .. } => self.sem.poll_allowed(&stage.acquire()),
            CellStage::Running => self.is_held(),
        }
    }

    // Whether the call has not the permit yet and is one of this permit's. It takes no memory.
    pub(crate) fn may_ask(&self, stage: CellStage) -> bool
        ensures { IsTrue result ↔ MayAsk self.now stage }
    {
        match stage {
            CellStage::New => true,
            CellStage::Queued { .. } => self.sem.poll_allowed(&stage.acquire()),
            CellStage::Running | CellStage::Done => false,
        }
    }

    // How many calls wait. It takes no memory.
    pub(crate) fn waiting(&self) -> usize
        ensures { result ≡ length self.now.queue }
    {
        self.sem.queue_len()
    }

    // How many wakers are to be called. It takes no memory.
    pub(crate) fn wakes_ready(&self) -> usize
        ensures is { result ≡ length self.now.wakes }
        ensures bound { result < 2 ^ 63 }
    {
        self.sem.wakes_ready()
    }

    // Takes the first waker that is to be called. It takes no memory.
    pub(crate) fn next_wake(&mut self) -> Option<W>
        ensures some { IfSome result (λ waker. self.old ≡ record self.new { wakes = waker ∷ self.new.wakes }) }
        ensures none { IfNone result ((self.old.wakes ≡ []) × (self.new ≡ self.old)) }
        ensures sound { IsPermit self.new }
    {
        self.sem.next_wake()
    }

    // Moves the wakers that are to be called to an outbox, in their order. It takes no memory.
    pub(crate) fn move_wakes(&mut self, out: &mut Outbox<W>)
        requires { length self.old.wakes ≤ out.old.spare }
        ensures moved { self.new ≡ record self.old { wakes = [] } }
        ensures wakers { out.new.wakers ≡ out.old.wakers ++ self.old.wakes }
        ensures spare { out.new.spare + length self.old.wakes ≡ out.old.spare }
        ensures sound { IsPermit self.new }
    {
        let _ = self.is_free();
        while let Some(waker) = self.next_wake() {
            out.push(waker);
        }
    }
}
