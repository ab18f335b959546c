ghost use Rattle.std.specs.Prelude.{◌≡◌, ◌+◌, ◌<◌, ◌≤◌, ◌^◌, ◌↔◌, [], ◌∷◌, ◌++◌, length, IsTrue, IsSome, Ok, IfOk, IfSome, IfNone, MatchOption, option_copied, OnErr};
ghost use Rattle.std.specs.Option.{option_copied_mut};
ghost use Rattle.std.specs.Borrow.{sem};
ghost use Rattle.mea_sem_core.specs.Core.{held_of};
ghost use Rattle.mea_once_core.specs.Permit.{HoldsAs, held_at, MayPoll, MayEnd, MayAsk, free_permit};
ghost use Rattle.mea_once_core.specs.Cell.{IsSound, RunsInit, PollsTurn, HasTurn, PollsInit, PollsMut, PollsInsert, MayInsert, Ends, queues_more, Finds, AddAtMost, alone, filled, given_up, renewed_init, renewed_insert};

use crate::cell_stage::CellStage;
use crate::cell_turn::CellTurn;
use crate::init::Init;
use crate::init_call::InitCall;
use crate::insert_call::InsertCall;
use crate::permit::Permit;
use mea_base::{NoMemory, Outbox, Poll, Turn};
use std::alloc::Global;
use std::marker::Model;

/// A cell that is filled once: a value or none, and the one permit of the calls that may fill it.
///
/// It ports the state of `mea::once::OnceCell`.
pub struct CellCore<T, W> {
    value: Option<T>,
    permit: Permit<W>,
    alloc: Global,
}

impl<T, W> Model for CellCore<T, W> {
    ghost use Rattle.mea_once_core.specs.Cell.{Cell, cell_code, IsSound};

    ghost Value = { Cell T W };

    ghost coded = { cell_code T.code W.code };

    ghost view = { λ c. record { value = c.value; permit = c.permit } };

    ghost invariant = { λ c. IsSound (record { value = c.value; permit = c.permit }) };
}

// Written out: a derived one is proved anew in each crate that hands a value of this type to a generic function.
impl<T: Drop, W: Drop> Drop for CellCore<T, W> {
    fn drop(self) {
        let CellCore {
            value: _,
            permit: _,
            alloc: _,
        } = self;
    }
}

impl<T: Drop, W: Drop> CellCore<T, W> {
    ghost use Rattle.mea_once_core.specs.CellLends.{lends_value};

    /// An empty cell. It takes no memory.
    pub fn new(alloc: Global) -> Self
        ensures is { result ≡ record { value = None; permit = free_permit } }
        ensures sound { IsSound result }
    {
        CellCore {
            value: None,
            permit: Permit::new(alloc),
            alloc,
        }
    }

    /// A cell with a value. It takes no memory.
    pub fn from_value(alloc: Global, value: T) -> Self
        ensures is { result ≡ record { value = Some value; permit = free_permit } }
        ensures sound { IsSound result }
    {
        CellCore {
            value: Some(value),
            permit: Permit::new(alloc),
            alloc,
        }
    }

    /// The value, if there is one. It takes no memory.
    pub fn get(&self) -> Option<&T>
        ensures { option_copied result ≡ self.now.value }
    {
        self.value.as_ref()
    }

    /// The value for writing, if there is one, for who has the whole cell. It takes no memory.
    pub fn get_mut(&mut self) -> Option<&mut T>
        requires { self.old.permit.free ≡ 1 }
        ensures* writes_back { sem 𝓛 (lends_value T.row W.row self.entry result) }
        ensures value { option_copied_mut result ≡ self.old.value }
    {
        self.value.as_mut()
    }

    /// Whether the cell has a value. It takes no memory.
    pub fn is_full(&self) -> bool
        ensures is { IsTrue result ↔ IsSome self.now.value }
        ensures sound { IsSound self.now }
    {
        self.value.is_some()
    }

    /// Whether the permit is free, so that no call waits or computes, which `get_mut`, `poll_mut`, `take`
    /// and `into_inner` ask for. It takes no memory.
    pub fn is_idle(&self) -> bool
        ensures is { IsTrue result ↔ (self.now.permit.free ≡ 1) }
        ensures sound { IsSound self.now }
    {
        self.permit.is_free()
    }

    // ---- computing a value

    /// Polls a call for its turn: the cell is full; or it is empty and the turn is this call's, which then ends
    /// by `fill` or `give_up`; or another call has it. It takes memory only where a new call has to queue, and
    /// where there is none it hands the waker back.
    pub fn poll_turn(
        &mut self,
        stage: &mut CellStage,
        waker: W,
    ) -> Result<CellTurn<W>, (W, NoMemory)>
        requires { MayPoll self.old.permit stage.old }
        ensures polls { PollsTurn stage.old self.old waker result self.new stage.new }
        ensures turn { IfOk result (λ turn. HasTurn turn self.new stage.new) }
        ensures held { HoldsAs self.old.permit stage.old self.new.permit stage.new }
        ensures few { AddAtMost (queues_more self.old stage.old) self.old self.new }
        ensures no_memory { OnErr result (queues_more self.old stage.old ≡ 1) }
        ensures err { OnErr result ((self.new ≡ self.old) × (stage.new ≡ stage.old)) }
        ensures sound { IsSound self.new }
    {
        match *stage {
            CellStage::New => self.start(stage, waker),
            CellStage::Queued { number } => Ok(self.resume(stage, number, waker)),
            CellStage::Running => {
                let _ = self.is_full();
                Ok(CellTurn::Mine(waker))
            }
            CellStage::Done => unreachable!(),
        }
    }

    // The first poll for one's turn.
    fn start(&mut self, stage: &mut CellStage, waker: W) -> Result<CellTurn<W>, (W, NoMemory)>
        requires { stage.old ≡ CellStage.New }
        ensures polls { PollsTurn CellStage.New self.old waker result self.new stage.new }
        ensures turn { IfOk result (λ turn. HasTurn turn self.new stage.new) }
        ensures held { HoldsAs self.old.permit CellStage.New self.new.permit stage.new }
        ensures few { AddAtMost (queues_more self.old CellStage.New) self.old self.new }
        ensures no_memory { OnErr result (queues_more self.old CellStage.New ≡ 1) }
        ensures err { OnErr result ((self.new ≡ self.old) × (stage.new ≡ stage.old)) }
        ensures sound { IsSound self.new }
    {
        if self.is_full() {
            *stage = CellStage::Done;
            return Ok(CellTurn::Full);
        }
        match self.permit.ask(stage, waker)? {
            Turn::Ready(waker) => Ok(CellTurn::Mine(waker)),
            Turn::Pending => Ok(CellTurn::Pending),
        }
    }

    // A further poll of a call that has not the permit yet.
    fn resume(&mut self, stage: &mut CellStage, number: usize, waker: W) -> CellTurn<W>
        requires stage { stage.old ≡ CellStage.Queued number }
        requires known { MayAsk self.old.permit (CellStage.Queued number) }
        ensures polls { PollsTurn (CellStage.Queued number) self.old waker (Ok result) self.new stage.new }
        ensures turn { HasTurn result self.new stage.new }
        ensures held { HoldsAs self.old.permit (CellStage.Queued number) self.new.permit stage.new }
        ensures few { AddAtMost 0 self.old self.new }
        ensures sound { IsSound self.new }
    {
        match self.permit.ask(stage, waker) {
            Ok(Turn::Ready(waker)) => {
                if self.value.is_some() {
                    self.permit.pass_on();
                    *stage = CellStage::Done;
                    return CellTurn::Full;
                }
                CellTurn::Mine(waker)
            }
            Ok(Turn::Pending) => CellTurn::Pending,
            Err(_) => unreachable!(),
        }
    }

    /// Fills the cell, for the call whose turn it is, which ends: the turn goes to the next, whose waker is
    /// ready. It takes no memory.
    pub fn fill(&mut self, stage: &mut CellStage, value: T)
        requires { 1 ≤ held_of self.old.permit }
        ensures is { self.new ≡ filled self.old value }
        ensures stage { stage.new ≡ CellStage.Done }
        ensures held { held_of self.new.permit ≡ 0 }
        ensures few { AddAtMost 0 self.old self.new }
        ensures sound { IsSound self.new }
    {
        self.value = Some(value);
        self.permit.pass_on();
        *stage = CellStage::Done;
    }

    /// Gives the turn up, for the call whose turn it is, which ends: the turn goes to the next, whose waker is
    /// ready. It takes no memory.
    pub fn give_up(&mut self, stage: &mut CellStage)
        requires { 1 ≤ held_of self.old.permit }
        ensures is { self.new ≡ given_up self.old }
        ensures stage { stage.new ≡ CellStage.Done }
        ensures held { held_of self.new.permit ≡ 0 }
        ensures few { AddAtMost 0 self.old self.new }
        ensures sound { IsSound self.new }
    {
        self.permit.pass_on();
        *stage = CellStage::Done;
    }

    /// Polls a call with an initialiser: ready where the cell has a value, be it that of this initialiser,
    /// or where the initialiser answers an error; pending where another call has the permit, or where the
    /// initialiser is. It takes memory only where a new call has to queue, and where there is none it hands
    /// the waker back.
    pub fn poll_init<E: Drop, I: Init<T, E, W>>(
        &mut self,
        call: &mut InitCall<I>,
        waker: W,
    ) -> Result<Poll<Result<(), E>>, (W, NoMemory)>
        requires may { MayPoll self.old.permit call.old.stage }
        requires init { I.may_poll call.old.init }
        ensures polls { PollsInit I.answers self.old call.old waker result self.new call.new }
        ensures again { IfOk result (λ poll. poll ≡ Poll.Pending → I.may_poll call.new.init) }
        ensures few { AddAtMost (queues_more self.old call.old.stage) self.old self.new }
        ensures fills { IfOk result (λ poll. poll ≡ Poll.Ready (Ok tt) → IsSome self.new.value) }
        ensures no_memory { OnErr result (queues_more self.old call.old.stage ≡ 1) }
        ensures err { OnErr result ((self.new ≡ self.old) × (call.new ≡ call.old)) }
        ensures sound { IsSound self.new }
    {
        match self.poll_turn(&mut call.stage, waker)? {
            CellTurn::Full => Ok(Poll::Ready(Ok(()))),
            CellTurn::Mine(waker) => Ok(self.run(call, waker)),
            CellTurn::Pending => Ok(Poll::Pending),
        }
    }

    // Who has the permit polls its initialiser.
    fn run<E: Drop, I: Init<T, E, W>>(
        &mut self,
        call: &mut InitCall<I>,
        waker: W,
    ) -> Poll<Result<(), E>>
        requires held { 1 ≤ held_of self.old.permit }
        requires init { I.may_poll call.old.init }
        requires running { call.old.stage ≡ CellStage.Running }
        ensures runs { RunsInit I.answers self.old call.old.init waker result self.new call.new }
        ensures again { result ≡ Poll.Pending → I.may_poll call.new.init }
        ensures fills { result ≡ Poll.Ready (Ok tt) → IsSome self.new.value }
        ensures few { AddAtMost 0 self.old self.new }
        ensures sound { IsSound self.new }
    {
        match call.init.poll(waker) {
            Poll::Pending => {
                let _ = self.is_full();
                Poll::Pending
            }
            Poll::Ready(Ok(value)) => {
                self.fill(&mut call.stage, value);
                Poll::Ready(Ok(()))
            }
            Poll::Ready(Err(e)) => {
                self.give_up(&mut call.stage);
                Poll::Ready(Err(e))
            }
        }
    }

    /// Ends a call with an initialiser at any stage: one that waits leaves the queue; where its turn has
    /// come, or its initialiser has not answered, the permit goes to the next, whose waker is ready. The
    /// value stays as it is. It takes no memory.
    pub fn end_init<I: Drop>(&mut self, call: InitCall<I>)
        requires { MayEnd self.old.permit call.stage }
        ensures ends { Ends self.old call.stage self.new }
        ensures held { held_of self.new.permit + held_at call.stage ≡ held_of self.old.permit }
        ensures few { AddAtMost 0 self.old self.new }
        ensures sound { IsSound self.new }
    {
        self.permit.leave(call.stage);
    }

    // ---- putting a value

    /// Polls a call with a value: ready with Ok where it was put, or with the value where the cell is full,
    /// pending where another call has the permit. It takes memory only where a new call has to queue, and
    /// where there is none it hands the waker back.
    pub fn poll_insert(
        &mut self,
        call: &mut InsertCall<T>,
        waker: W,
    ) -> Result<Poll<Result<(), T>>, (W, NoMemory)>
        requires { MayInsert self.old call.old }
        ensures polls { PollsInsert self.old call.old waker result self.new call.new }
        ensures no_memory { OnErr result (queues_more self.old call.old.stage ≡ 1) }
        ensures err { OnErr result ((self.new ≡ self.old) × (call.new ≡ call.old)) }
        ensures sound { IsSound self.new }
    {
        let Some(value) = call.value.take() else {
            return Ok(Poll::Ready(Ok(())));
        };
        if let CellStage::New = call.stage {
            if self.value.is_some() {
                call.stage = CellStage::Done;
                return Ok(Poll::Ready(Err(value)));
            }
        }
        match self.permit.ask(&mut call.stage, waker) {
            Ok(Turn::Ready(_)) => {
                call.stage = CellStage::Done;
                self.permit.pass_on();
                Ok(Poll::Ready(put(&mut self.value, value)))
            }
            Ok(Turn::Pending) => {
                call.value = Some(value);
                Ok(Poll::Pending)
            }
            Err(failed) => {
                call.value = Some(value);
                Err(failed)
            }
        }
    }

    /// Ends a call with a value that was not ready, and hands the value out: one that waits leaves the
    /// queue; where its turn has come, that goes to the next, whose waker is ready. It takes no memory.
    pub fn end_insert(&mut self, call: InsertCall<T>) -> T
        requires { MayInsert self.old call }
        ensures ends { Ends self.old call.stage self.new }
        ensures value { call.value ≡ Some result }
        ensures sound { IsSound self.new }
    {
        self.permit.leave(call.stage);
        match call.value {
            Some(value) => value,
            None => unreachable!(),
        }
    }

    // ---- for who has the whole cell

    /// Polls an initialiser where the cell is empty, for who has the whole cell. It takes no memory.
    pub fn poll_mut<E: Drop, I: Init<T, E, W>>(
        &mut self,
        init: &mut I,
        waker: W,
    ) -> Poll<Result<(), E>>
        requires idle { self.old.permit.free ≡ 1 }
        requires init { I.may_poll init.old }
        ensures again { result ≡ Poll.Pending → I.may_poll init.new }
        ensures polls { PollsMut I.answers self.old init.old waker result self.new init.new }
        ensures sound { IsSound self.new }
    {
        if self.value.is_some() {
            return Poll::Ready(Ok(()));
        }
        match init.poll(waker) {
            Poll::Pending => Poll::Pending,
            Poll::Ready(Ok(value)) => {
                let _ = self.permit.is_free();
                self.value = Some(value);
                Poll::Ready(Ok(()))
            }
            Poll::Ready(Err(e)) => Poll::Ready(Err(e)),
        }
    }

    /// Takes the value out, for who has the whole cell. It takes no memory.
    pub fn take(&mut self) -> Option<T>
        requires { self.old.permit.free ≡ 1 }
        ensures value { result ≡ self.old.value }
        ensures is { self.new ≡ record self.old { value = None } }
        ensures sound { IsSound self.new }
    {
        self.value.take()
    }

    /// The value, for who has the whole cell, which ends. It takes no memory.
    pub fn into_inner(self) -> Option<T>
        requires { self.permit.free ≡ 1 }
        ensures { result ≡ self.value }
    {
        self.into_inner_checked()
    }

    // ---- wakes

    /// How many wakers are to be called. It takes no memory.
    pub fn wakes_ready(&self) -> usize
        ensures is { result ≡ length self.now.permit.wakes }
        ensures bound { result < 2 ^ 63 }
    {
        self.permit.wakes_ready()
    }

    /// Takes the first waker that is to be called. It takes no memory.
    pub fn next_wake(&mut self) -> Option<W>
        ensures some { IfSome result (λ waker. self.old ≡ record self.new { permit = record self.new.permit { wakes = waker ∷ self.new.permit.wakes } }) }
        ensures none { IfNone result ((self.old.permit.wakes ≡ []) × (self.new ≡ self.old)) }
        ensures sound { IsSound self.new }
    {
        self.permit.next_wake()
    }

    /// Moves the wakers that are to be called to an outbox, in their order. It takes no memory.
    pub fn move_wakes(&mut self, out: &mut Outbox<W>)
        requires { length self.old.permit.wakes ≤ out.old.spare }
        ensures moved { self.new ≡ record self.old { permit = record self.old.permit { wakes = [] } } }
        ensures wakers { out.new.wakers ≡ out.old.wakers ++ self.old.permit.wakes }
        ensures spare { out.new.spare + length self.old.permit.wakes ≡ out.old.spare }
        ensures sound { IsSound self.new }
    {
        self.permit.move_wakes(out);
    }

    /// Whether the next poll of a call at this stage finds the value there: of a new one, or of one whose turn
    /// has come. It takes no memory.
    pub fn finds(&self, stage: CellStage) -> bool
        ensures { IsTrue result ↔ Finds self.now stage }
    {
        self.value.is_some()
            && match stage {
                CellStage::New => true,
                CellStage::Queued { number } => self.permit.is_next(number),
                CellStage::Running | CellStage::Done => false,
            }
    }

    /// How many calls more wait once a call at this stage was polled: 1 for a new one that finds the permit
    /// taken, else 0. It takes no memory.
    pub fn queues_more(&self, stage: CellStage) -> usize
        ensures is { result ≡ queues_more self.now stage }
        ensures small { result ≤ 1 }
    {
        match stage {
            CellStage::New => {
                if self.value.is_none() && !self.permit.is_free() {
                    1
                } else {
                    0
                }
            }
            _ => 0,
        }
    }

    /// How many calls wait. It takes no memory.
    pub fn waiting(&self) -> usize
        ensures { result ≡ length self.now.permit.queue }
    {
        self.permit.waiting()
    }

    // ---- the forms that ask for nothing

    // Whether a call at this stage is one of this cell that was not ready yet. It takes no memory.
    pub(crate) fn may_poll(&self, stage: CellStage) -> bool
        ensures { IsTrue result ↔ MayPoll self.now.permit stage }
    {
        self.permit.may_poll(stage)
    }

    // Whether a call at this stage is one of this cell. It takes no memory.
    pub(crate) fn may_end(&self, stage: CellStage) -> bool
        ensures { IsTrue result ↔ MayEnd self.now.permit stage }
    {
        self.permit.may_end(stage)
    }

    /// Whether the call is one of this cell that was not ready yet, which `poll_init` asks for. It takes no
    /// memory.
    pub fn poll_init_allowed<I>(&self, call: &InitCall<I>) -> bool
        ensures { IsTrue result ↔ MayPoll self.now.permit call.now.stage }
    {
        self.permit.may_poll(call.stage)
    }

    /// `poll_init`, of a call that is renewed first where it is not one of this cell or was ready.
    pub fn poll_init_checked<E: Drop, I: Init<T, E, W>>(
        &mut self,
        call: &mut InitCall<I>,
        waker: W,
    ) -> Result<Poll<Result<(), E>>, (W, NoMemory)>
        requires { I.may_poll call.old.init }
        ensures again { IfOk result (λ poll. poll ≡ Poll.Pending → I.may_poll call.new.init) }
        ensures allowed { MayPoll self.old.permit call.old.stage → PollsInit I.answers self.old call.old waker result self.new call.new }
        ensures renewed { ¬ MayPoll self.old.permit call.old.stage → PollsInit I.answers self.old (renewed_init call.old) waker result self.new call.new }
        ensures sound { IsSound self.new }
    {
        if !self.poll_init_allowed(call) {
            call.renew();
        }
        self.poll_init(call, waker)
    }

    /// Whether the call is one of this cell, which `end_init` asks for. It takes no memory.
    pub fn end_init_allowed<I>(&self, call: &InitCall<I>) -> bool
        ensures is { IsTrue result ↔ MayEnd self.now.permit call.now.stage }
        ensures sound { IsSound self.now }
    {
        let _ = self.permit.is_free();
        self.permit.may_end(call.stage)
    }

    /// `end_init`, which does nothing more where the call is not one of this cell. It takes no memory.
    pub fn end_init_checked<I: Drop>(&mut self, call: InitCall<I>)
        ensures allowed { MayEnd self.old.permit call.stage → Ends self.old call.stage self.new }
        ensures refused { ¬ MayEnd self.old.permit call.stage → self.new ≡ self.old }
        ensures sound { IsSound self.new }
    {
        if self.end_init_allowed(&call) {
            self.end_init(call);
        }
    }

    /// Whether the call has its value, is one of this cell and was not ready yet, which `poll_insert` asks for.
    /// It takes no memory.
    pub fn poll_insert_allowed(&self, call: &InsertCall<T>) -> bool
        ensures is { IsTrue result ↔ MayInsert self.now call.now }
        ensures sound { IsSound self.now }
    {
        let _ = self.permit.is_free();
        call.value.is_some() && self.permit.may_ask(call.stage)
    }

    /// The same, which `end_insert` asks for. It takes no memory.
    pub fn end_insert_allowed(&self, call: &InsertCall<T>) -> bool
        ensures is { IsTrue result ↔ MayInsert self.now call.now }
        ensures sound { IsSound self.now }
    {
        self.poll_insert_allowed(call)
    }

    /// `poll_insert`, of a call that is renewed first where it is not one of this cell or was ready; one
    /// whose value is gone is ready again, and changes nothing.
    pub fn poll_insert_checked(
        &mut self,
        call: &mut InsertCall<T>,
        waker: W,
    ) -> Result<Poll<Result<(), T>>, (W, NoMemory)>
        ensures allowed { MayInsert self.old call.old → PollsInsert self.old call.old waker result self.new call.new }
        ensures renewed { ¬ MayInsert self.old call.old → PollsInsert self.old (renewed_insert call.old) waker result self.new call.new }
        ensures sound { IsSound self.new }
    {
        if call.value.is_none() {
            let _ = self.is_idle();
            return Ok(Poll::Ready(Ok(())));
        }
        if !self.poll_insert_allowed(call) {
            call.renew();
        }
        self.poll_insert(call, waker)
    }

    /// `end_insert`, which does nothing more than hand the value out where the call is not one of this cell.
    /// It takes no memory.
    pub fn end_insert_checked(&mut self, call: InsertCall<T>) -> T
        requires { IsSome call.value }
        ensures allowed { MayInsert self.old call → Ends self.old call.stage self.new }
        ensures refused { ¬ MayInsert self.old call → self.new ≡ self.old }
        ensures value { call.value ≡ Some result }
        ensures sound { IsSound self.new }
    {
        if self.end_insert_allowed(&call) {
            return self.end_insert(call);
        }
        match call.value {
            Some(value) => value,
            None => unreachable!(),
        }
    }

    // A cell with the same value and a permit that nobody has or waits for.
    fn renew(&mut self)
        ensures is { self.new ≡ alone self.old }
        ensures sound { IsSound self.new }
    {
        self.permit = Permit::new(self.alloc);
    }

    /// `poll_mut`, of a new cell with the same value in the place of one whose permit is not free. Wakers that
    /// are ready in that go with it: hand them out first. It takes no memory.
    pub fn poll_mut_checked<E: Drop, I: Init<T, E, W>>(
        &mut self,
        init: &mut I,
        waker: W,
    ) -> Poll<Result<(), E>>
        requires { I.may_poll init.old }
        ensures again { result ≡ Poll.Pending → I.may_poll init.new }
        ensures allowed { self.old.permit.free ≡ 1 → PollsMut I.answers self.old init.old waker result self.new init.new }
        ensures renewed { ¬ (self.old.permit.free ≡ 1) → PollsMut I.answers (alone self.old) init.old waker result self.new init.new }
        ensures sound { IsSound self.new }
    {
        if !self.is_idle() {
            self.renew();
        }
        self.poll_mut(init, waker)
    }

    /// `take`, of a new cell with the same value in the place of one whose permit is not free. Wakers that are
    /// ready in that go with it: hand them out first. It takes no memory.
    pub fn take_checked(&mut self) -> Option<T>
        ensures value { result ≡ self.old.value }
        ensures allowed { self.old.permit.free ≡ 1 → self.new ≡ record self.old { value = None } }
        ensures renewed { ¬ (self.old.permit.free ≡ 1) → self.new ≡ record (alone self.old) { value = None } }
        ensures sound { IsSound self.new }
    {
        if !self.is_idle() {
            self.renew();
        }
        self.take()
    }

    /// `into_inner`, which asks for nothing. It takes no memory.
    pub fn into_inner_checked(self) -> Option<T>
        ensures { result ≡ self.value }
    {
        let CellCore {
            value,
            permit: _,
            alloc: _,
        } = self;
        value
    }
}

// Puts a value where there is none, or hands it back.
fn put<T: Drop>(slot: &mut Option<T>, value: T) -> Result<(), T>
    ensures { MatchOption slot.old ((result ≡ Ok tt) × (slot.new ≡ Some value)) (λ _. (result ≡ Err value) × (slot.new ≡ slot.old)) }
{
    if slot.is_some() {
        return Err(value);
    }
    *slot = Some(value);
    Ok(())
}
