ghost use Rattle.std.specs.Prelude.{◌≡◌, ◌+◌, ◌<◌, ◌≤◌, ◌^◌, ◌↔◌, [], ◌∷◌, ◌++◌, length, true, IsTrue, IsOk, IfOk, IfSome, IfNone, OnOk, OnErr};
ghost use Rattle.mea_sets.specs.WaitSet.{has_given, is_registered};
ghost use Rattle.mea_sets.specs.Countdown.{Counting, PollsCount};
ghost use Rattle.mea_meet_core.specs.Count.{usable};
ghost use Rattle.mea_sem_core.specs.Core.{held_of};
ghost use Rattle.mea_once_core.specs.Permit.{HoldsAs, held_at, MayPoll, MayEnd};
ghost use Rattle.mea_once_core.specs.Cell as cells;
ghost use Rattle.mea_once_core.specs.Cell.{HasTurn, renewed_init};
ghost use Rattle.mea_once_core.specs.Once.{Once, IsSound, uncalled, count_after, woken, quieted, with_cell, TurnsCall, PollsCall, EndsCall, answered};

use crate::cell_core::CellCore;
use crate::cell_stage::CellStage;
use crate::cell_turn::CellTurn;
use crate::init::Init;
use crate::init_call::InitCall;
use crate::never::Never;
use mea_base::{NoMemory, Outbox, Poll};
use mea_meet_core::{LatchCore, LatchWait};
use std::alloc::Global;
use std::marker::Model;

/// A call that runs once: a cell without content that is filled when a call completes, and a latch for
/// those who wait for that. It stands on the contracts of the cell and of the latch alone; their wakers
/// move to an outbox of its own, so that they keep the order in which they were made ready.
///
/// It ports the state of `mea::once::Once`.
pub struct OnceCore<W> {
    cell: CellCore<(), W>,
    done: LatchCore<W>,
    outbox: Outbox<W>,
}

impl<W> Model for OnceCore<W> {
    ghost use Rattle.std.specs.Prelude.{◌≡◌, ◌+◌, ◌≤◌, [], length};
    ghost use Rattle.mea_once_core.specs.Once.{Once, once_code, IsSound};

    ghost Value = { Once W };

    ghost coded = { once_code W.code };

    ghost view = { λ o. record { cell = o.cell; done = o.done.count; wakes = o.outbox.wakers } };

    ghost invariant = { λ o. record {
      sound : IsSound (record { cell = o.cell; done = o.done.count; wakes = o.outbox.wakers });
      moved : o.done.wakes ≡ [];
      room : length o.done.count.waiting.wakers + length o.cell.permit.queue ≤ o.outbox.spare;
    } };
}

// Written out: a derived one is proved anew in each crate that hands a value of this type to a generic function.
impl<W: Drop> Drop for OnceCore<W> {
    fn drop(self) {
        let OnceCore {
            cell: _,
            done: _,
            outbox: _,
        } = self;
    }
}

impl<W: Drop> OnceCore<W> {
    /// One that nobody has called. It takes no memory.
    pub fn new(alloc: Global) -> Self
        ensures is { result ≡ uncalled }
        ensures sound { IsSound result }
    {
        OnceCore {
            cell: CellCore::new(alloc),
            done: LatchCore::new(alloc, 1),
            outbox: Outbox::new(alloc),
        }
    }

    /// Whether a call has completed. It takes no memory.
    pub fn is_completed(&self) -> bool
        ensures is { IsTrue result ↔ (self.now.done.number ≡ 0) }
        ensures sound { IsSound self.now }
    {
        self.done.try_wait().is_ok()
    }

    // ---- calls

    /// Polls a call: ready where a call has completed, be it this one; pending where another call runs, or
    /// where this one's initialiser is. At its completion all who wait for it are woken, in the order of
    /// their registration, and then the next caller. It takes memory only where a new call has to queue, and
    /// where there is none it hands the waker back.
    pub fn poll_call<I: Init<(), Never, W>>(
        &mut self,
        call: &mut InitCall<I>,
        waker: W,
    ) -> Result<Poll<()>, (W, NoMemory)>
        requires may { MayPoll self.old.cell.permit call.old.stage }
        requires init { I.may_poll call.old.init }
        ensures again { IfOk result (λ poll. poll ≡ Poll.Pending → I.may_poll call.new.init) }
        ensures polls { PollsCall I.answers self.old call.old waker result self.new call.new }
        ensures no_memory { OnErr result (cells.queues_more self.old.cell call.old.stage ≡ 1) }
        ensures err { OnErr result ((self.new ≡ self.old) × (call.new ≡ call.old)) }
        ensures sound { IsSound self.new }
    {
        let more = self.cell.queues_more(call.stage);
        if reserve(
            &mut self.outbox,
            self.done.registered(),
            self.cell.waiting(),
            more,
        )
        .is_err()
        {
            return Err((waker, NoMemory));
        }
        match self.cell.poll_init(call, waker) {
            Ok(answer) => {
                settle(&mut self.cell, &mut self.done, &mut self.outbox);
                Ok(told(&answer))
            }
            Err(failed) => Err(failed),
        }
    }

    /// Polls a call for its turn: a call has completed; or none has and the turn is this call's, which then ends by
    /// `complete` or `give_up`; or another call has it. It takes memory only where a new call has to queue, and
    /// where there is none it hands the waker back.
    pub fn poll_turn(
        &mut self,
        stage: &mut CellStage,
        waker: W,
    ) -> Result<CellTurn<W>, (W, NoMemory)>
        requires { MayPoll self.old.cell.permit stage.old }
        ensures polls { TurnsCall self.old stage.old waker result self.new stage.new }
        ensures turn { IfOk result (λ turn. HasTurn turn self.new.cell stage.new) }
        ensures held { HoldsAs self.old.cell.permit stage.old self.new.cell.permit stage.new }
        ensures no_memory { OnErr result (cells.queues_more self.old.cell stage.old ≡ 1) }
        ensures err { OnErr result ((self.new ≡ self.old) × (stage.new ≡ stage.old)) }
        ensures sound { IsSound self.new }
    {
        let more = self.cell.queues_more(*stage);
        if reserve(
            &mut self.outbox,
            self.done.registered(),
            self.cell.waiting(),
            more,
        )
        .is_err()
        {
            return Err((waker, NoMemory));
        }
        match self.cell.poll_turn(stage, waker) {
            Ok(turn) => {
                settle(&mut self.cell, &mut self.done, &mut self.outbox);
                Ok(turn)
            }
            Err(failed) => Err(failed),
        }
    }

    /// Completes it, for the call whose turn it is, which ends: all who wait for that are woken, in the order of
    /// their registration, and then the next caller. It takes no memory.
    pub fn complete(&mut self, stage: &mut CellStage)
        requires { 1 ≤ held_of self.old.cell.permit }
        ensures is { self.new ≡ with_cell self.old (cells.filled self.old.cell tt) }
        ensures stage { stage.new ≡ CellStage.Done }
        ensures held { held_of self.new.cell.permit ≡ 0 }
        ensures sound { IsSound self.new }
    {
        self.cell.fill(stage, ());
        settle(&mut self.cell, &mut self.done, &mut self.outbox);
    }

    /// Gives the turn up, for the call whose turn it is, which ends: the next caller's waker is ready. It takes no
    /// memory.
    pub fn give_up(&mut self, stage: &mut CellStage)
        requires { 1 ≤ held_of self.old.cell.permit }
        ensures is { self.new ≡ with_cell self.old (cells.given_up self.old.cell) }
        ensures stage { stage.new ≡ CellStage.Done }
        ensures held { held_of self.new.cell.permit ≡ 0 }
        ensures sound { IsSound self.new }
    {
        self.cell.give_up(stage);
        settle(&mut self.cell, &mut self.done, &mut self.outbox);
    }

    /// Ends a call at any stage: one that waits leaves the queue; where its turn has come, or its
    /// initialiser has not answered, the next caller's waker is ready. It takes no memory.
    pub fn end_call<I: Drop>(&mut self, call: InitCall<I>)
        requires { MayEnd self.old.cell.permit call.stage }
        ensures ends { EndsCall self.old call.stage self.new }
        ensures held { held_of self.new.cell.permit + held_at call.stage ≡ held_of self.old.cell.permit }
        ensures sound { IsSound self.new }
    {
        self.cell.end_init(call);
        settle(&mut self.cell, &mut self.done, &mut self.outbox);
    }

    // ---- waits

    /// Is ready where a call has completed. Else the waker is registered, in place of this wait's earlier
    /// one if that is registered, which takes no memory; with no memory for a further one nothing has changed.
    pub fn poll_wait(&mut self, wait: &mut LatchWait, waker: W) -> Result<Poll<()>, (W, NoMemory)>
        requires { has_given self.old.done.waiting wait.old ≡ true }
        ensures polls { PollsCount self.old.done wait.old waker result self.new.done wait.new }
        ensures rest { self.new ≡ record self.old { done = self.new.done } }
        ensures replaces { is_registered self.old.done.waiting wait.old ≡ true → IsOk result }
        ensures sound { IsSound self.new }
    {
        if self.is_completed() {
            return Ok(Poll::Ready(()));
        }
        if self.done.is_registered(wait) {
            return self.done.poll(wait, waker);
        }
        let Some(registered) = self.done.registered_with(wait) else {
            return Err((waker, NoMemory));
        };
        let Some(all) = registered.checked_add(self.cell.waiting()) else {
            return Err((waker, NoMemory));
        };
        if self.outbox.reserve(all).is_err() {
            return Err((waker, NoMemory));
        }
        self.done.poll(wait, waker)
    }

    /// Ends a wait, whose waker stays. It takes no memory.
    pub fn end_wait(&mut self, wait: LatchWait)
        requires { has_given self.old.done.waiting wait ≡ true }
        ensures { self.new ≡ self.old }
    {
        self.done.end(wait);
    }

    /// How many calls wait for their turn. It takes no memory.
    pub fn waiting(&self) -> usize
        ensures { result ≡ length self.now.cell.permit.queue }
    {
        self.cell.waiting()
    }

    /// How many wakers of those who wait are registered. It takes no memory.
    pub fn registered(&self) -> usize
        ensures count { result ≡ length self.now.done.waiting.wakers }
        ensures over { self.now.done.number ≡ 0 → result ≡ 0 }
    {
        self.done.registered()
    }

    // ---- wakes

    /// How many wakers are ready. It takes no memory.
    pub fn wakes_ready(&self) -> usize
        ensures is { result ≡ length self.now.wakes }
        ensures bound { result < 2 ^ 63 }
    {
        self.outbox.len()
    }

    /// Takes the first waker that is ready. It takes no memory.
    pub fn next_wake(&mut self) -> Option<W>
        ensures first { IfSome result (λ w. self.old ≡ record self.new { wakes = w ∷ self.new.wakes }) }
        ensures empty { IfNone result ((self.old.wakes ≡ []) × (self.new ≡ self.old)) }
        ensures sound { IsSound self.new }
    {
        self.outbox.pop()
    }

    // ---- the forms that ask for nothing

    /// Whether the call is one of this once that was not ready yet, which `poll_call` asks for. It takes no
    /// memory.
    pub fn poll_call_allowed<I>(&self, call: &InitCall<I>) -> bool
        ensures { IsTrue result ↔ MayPoll self.now.cell.permit call.now.stage }
    {
        self.cell.poll_init_allowed(call)
    }

    /// `poll_call`, of a call that is renewed first where it is not one of this once or was ready.
    pub fn poll_call_checked<I: Init<(), Never, W>>(
        &mut self,
        call: &mut InitCall<I>,
        waker: W,
    ) -> Result<Poll<()>, (W, NoMemory)>
        requires { I.may_poll call.old.init }
        ensures again { IfOk result (λ poll. poll ≡ Poll.Pending → I.may_poll call.new.init) }
        ensures allowed { MayPoll self.old.cell.permit call.old.stage → PollsCall I.answers self.old call.old waker result self.new call.new }
        ensures renewed { ¬ MayPoll self.old.cell.permit call.old.stage → PollsCall I.answers self.old (renewed_init call.old) waker result self.new call.new }
        ensures sound { IsSound self.new }
    {
        if !self.poll_call_allowed(call) {
            call.renew();
        }
        self.poll_call(call, waker)
    }

    /// Whether the call is one of this once, which `end_call` asks for. It takes no memory.
    pub fn end_call_allowed<I>(&self, call: &InitCall<I>) -> bool
        ensures is { IsTrue result ↔ MayEnd self.now.cell.permit call.now.stage }
        ensures sound { IsSound self.now }
    {
        let _ = self.is_completed();
        self.cell.end_init_allowed(call)
    }

    /// `end_call`, which does nothing more where the call is not one of this once. It takes no memory.
    pub fn end_call_checked<I: Drop>(&mut self, call: InitCall<I>)
        ensures allowed { MayEnd self.old.cell.permit call.stage → EndsCall self.old call.stage self.new }
        ensures refused { ¬ MayEnd self.old.cell.permit call.stage → self.new ≡ self.old }
        ensures sound { IsSound self.new }
    {
        if self.end_call_allowed(&call) {
            self.end_call(call);
        }
    }

    /// Whether the wait belongs to this once, which `poll_wait` asks for. It takes no memory.
    pub fn poll_wait_allowed(&self, wait: &LatchWait) -> bool
        ensures { result ≡ has_given self.now.done.waiting wait.now }
    {
        self.done.poll_allowed(wait)
    }

    /// Whether the wait belongs to this once, which `end_wait` asks for. It takes no memory.
    pub fn end_wait_allowed(&self, wait: &LatchWait) -> bool
        ensures { result ≡ has_given self.now.done.waiting wait.now }
    {
        self.done.end_allowed(wait)
    }

    /// As `poll_wait`, of a renewed wait where the wait does not belong to this once.
    pub fn poll_wait_checked(
        &mut self,
        wait: &mut LatchWait,
        waker: W,
    ) -> Result<Poll<()>, (W, NoMemory)>
        ensures polls { PollsCount self.old.done (usable self.old.done wait.old) waker result self.new.done wait.new }
        ensures rest { self.new ≡ record self.old { done = self.new.done } }
        ensures replaces { is_registered self.old.done.waiting wait.old ≡ true → IsOk result }
        ensures sound { IsSound self.new }
    {
        if !self.poll_wait_allowed(wait) {
            wait.renew();
        }
        self.poll_wait(wait, waker)
    }

    /// As `end_wait`; it changes nothing in any case. It takes no memory.
    pub fn end_wait_checked(&mut self, wait: LatchWait)
        ensures { self.new ≡ self.old }
    {
        if self.end_wait_allowed(&wait) {
            self.end_wait(wait);
        }
    }
}

// Makes room for the wakers of those who wait and of so many callers, and of `more`; it can fail only where
// that is 1 or where the room was not there.
fn reserve<W>(
    outbox: &mut Outbox<W>,
    registered: usize,
    callers: usize,
    more: usize,
) -> Result<(), NoMemory>
    requires { registered + callers ≤ outbox.old.spare }
    ensures room { OnOk result (registered + callers + more ≤ outbox.new.spare) }
    ensures same { outbox.new.wakers ≡ outbox.old.wakers }
    ensures grows { outbox.old.spare ≤ outbox.new.spare }
    ensures succeeds { more ≡ 0 → IsOk result }
{
    if more == 0 {
        return Ok(());
    }
    let Some(callers) = callers.checked_add(more) else {
        return Err(NoMemory);
    };
    let Some(all) = callers.checked_add(registered) else {
        return Err(NoMemory);
    };
    outbox.reserve(all)
}

// What the caller is told.
fn told(answer: &Poll<Result<(), Never>>) -> Poll<()>
    ensures { result ≡ answered answer.now }
{
    match answer {
        Poll::Pending => Poll::Pending,
        Poll::Ready(_) => Poll::Ready(()),
    }
}

// After the cell has changed: where it is full the count ends, and the wakers that are ready move to the
// outbox, those of the waits first.
fn settle<W: Drop>(cell: &mut CellCore<(), W>, done: &mut LatchCore<W>, outbox: &mut Outbox<W>)
    requires moved { done.old.wakes ≡ [] }
    requires room { length done.old.count.waiting.wakers + length cell.old.permit.wakes ≤ outbox.old.spare }
    ensures cell { cell.new ≡ quieted cell.old }
    ensures sound { cells.IsSound cell.new }
    ensures done { done.new ≡ record { count = count_after cell.old.value done.old.count; wakes = [] } }
    ensures wakers { outbox.new.wakers ≡ (outbox.old.wakers ++ woken cell.old.value done.old.count) ++ cell.old.permit.wakes }
    ensures room { length done.new.count.waiting.wakers + outbox.old.spare ≤ length done.old.count.waiting.wakers + length cell.old.permit.wakes + outbox.new.spare }
{
    if cell.is_full() {
        done.count_down();
    }
    done.move_wakes(outbox);
    cell.move_wakes(outbox);
}
