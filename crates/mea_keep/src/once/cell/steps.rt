//! The steps of a cell's core that are made under its lock. Each tells how many wakers it made ready.
ghost use Rattle.std.specs.Prelude.{◌≡◌, ◌-◌, ◌≤◌, length};
ghost use Rattle.mea_sem_core.specs.Core.{held_of};
ghost use Rattle.mea_once_core.specs.Permit.{MayPoll, MayEnd};
ghost use Rattle.mea_once_core.specs.Cell.{PollsTurn, Ends, filled, given_up};

use mea_base::NoMemory;
use mea_once_core::{CellCore, CellStage, CellTurn, InitCall};

// Polls a call for its turn, which is a new one where it is not one of this cell that was not ready yet.
pub(super) fn poll<W: Drop>(
    core: &mut CellCore<(), W>,
    call: &mut InitCall<()>,
    waker: W,
) -> (Result<CellTurn<W>, (W, NoMemory)>, usize)
    ensures allowed { MayPoll core.old.permit call.old.stage → PollsTurn call.old.stage core.old waker result.0 core.new call.new.stage }
    ensures renewed { ¬ MayPoll core.old.permit call.old.stage → PollsTurn CellStage.New core.old waker result.0 core.new call.new.stage }
    ensures made { result.1 ≡ length core.new.permit.wakes - length core.old.permit.wakes }
{
    let before = core.wakes_ready();
    if !core.poll_init_allowed(call) {
        call.renew();
    }
    let answer = core.poll_turn(&mut call.stage, waker);
    (answer, core.wakes_ready().saturating_sub(before))
}

// Fills the cell, for the call whose turn it is, and passes the turn on.
pub(super) fn fill<W: Drop>(core: &mut CellCore<(), W>) -> usize
    ensures allowed { 1 ≤ held_of core.old.permit → core.new ≡ filled core.old tt }
    ensures refused { ¬ (1 ≤ held_of core.old.permit) → core.new ≡ core.old }
    ensures made { result ≡ length core.new.permit.wakes - length core.old.permit.wakes }
{
    let before = core.wakes_ready();
    let mut call = InitCall {
        init: (),
        stage: CellStage::Running,
    };
    if core.end_init_allowed(&call) {
        core.fill(&mut call.stage, ());
    }
    core.wakes_ready().saturating_sub(before)
}

// Ends a call, which passes its turn on.
pub(super) fn end<W: Drop>(core: &mut CellCore<(), W>, call: InitCall<()>) -> usize
    ensures allowed { MayEnd core.old.permit call.stage → Ends core.old call.stage core.new }
    ensures refused { ¬ MayEnd core.old.permit call.stage → core.new ≡ core.old }
    ensures made { result ≡ length core.new.permit.wakes - length core.old.permit.wakes }
{
    let before = core.wakes_ready();
    core.end_init_checked(call);
    core.wakes_ready().saturating_sub(before)
}

// Gives up the turn of the call that has it, which passes it on.
pub(super) fn give_up<W: Drop>(core: &mut CellCore<(), W>) -> usize
    ensures allowed { 1 ≤ held_of core.old.permit → core.new ≡ given_up core.old }
    ensures refused { ¬ (1 ≤ held_of core.old.permit) → core.new ≡ core.old }
    ensures made { result ≡ length core.new.permit.wakes - length core.old.permit.wakes }
{
    let before = core.wakes_ready();
    let mut call = InitCall {
        init: (),
        stage: CellStage::Running,
    };
    if core.end_init_allowed(&call) {
        core.give_up(&mut call.stage);
    }
    core.wakes_ready().saturating_sub(before)
}
