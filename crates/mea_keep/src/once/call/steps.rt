//! The steps of a call that runs once, made under its lock. Each tells how many wakers it made ready.
ghost use Rattle.std.specs.Prelude.{◌≡◌, ◌-◌, Ok, None, length};
ghost use Rattle.mea_once_core.specs.Permit.{MayPoll, MayEnd};
ghost use Rattle.mea_once_core.specs.Cell.{renewed_init};
ghost use Rattle.mea_once_core.specs.Once.{PollsCall, EndsCall};
ghost use Rattle.mea_meet_seats.specs.Seats.{fallen};
ghost use Rattle.mea_keep.specs.Promise.{Promises};

use crate::promise::Promise;
use mea_base::{NoMemory, Poll};
use mea_meet_seats::CountSeats;
use mea_once_core::{InitCall, OnceCore};

// Polls a call: ready where a call has completed, be it this one.
pub(super) fn poll<W: Drop>(
    core: &mut OnceCore<Option<W>>,
    call: &mut InitCall<Promise<(), W>>,
    waker: Option<W>,
) -> (Result<Poll<()>, (Option<W>, NoMemory)>, usize)
    ensures allowed { MayPoll core.old.cell.permit call.old.stage → PollsCall Promises core.old call.old waker result.0 core.new call.new }
    ensures renewed { ¬ MayPoll core.old.cell.permit call.old.stage → PollsCall Promises core.old (renewed_init call.old) waker result.0 core.new call.new }
    ensures made { result.1 ≡ length core.new.wakes - length core.old.wakes }
{
    let before = core.wakes_ready();
    let answer = core.poll_call_checked(call, waker);
    (answer, core.wakes_ready().saturating_sub(before))
}

// Polls a call whose promise was kept. Where that completes it, those who wait for that are woken: the third tells how
// many.
pub(super) fn finish<W: Drop>(
    core: &mut OnceCore<Option<W>>,
    done: &mut CountSeats<W>,
    call: &mut InitCall<Promise<(), W>>,
) -> (Result<Poll<()>, (Option<W>, NoMemory)>, usize, usize)
    ensures allowed { MayPoll core.old.cell.permit call.old.stage → PollsCall Promises core.old call.old None result.0 core.new call.new }
    ensures renewed { ¬ MayPoll core.old.cell.permit call.old.stage → PollsCall Promises core.old (renewed_init call.old) None result.0 core.new call.new }
    ensures made { result.1 ≡ length core.new.wakes - length core.old.wakes }
    ensures completes { result.0 ≡ Ok (Poll.Ready tt) → done.new ≡ fallen done.old 1 }
    ensures goes_on { result.0 ≡ Ok Poll.Pending → done.new ≡ done.old }
    ensures woken { result.2 ≡ length done.new.wakes - length done.old.wakes }
{
    let (answer, made) = poll(core, call, None);
    let woken = match answer {
        Ok(Poll::Ready(())) => done.decrement(1),
        _ => 0,
    };
    (answer, made, woken)
}

// Ends a call, which passes its turn on.
pub(super) fn end<W: Drop>(core: &mut OnceCore<Option<W>>, call: InitCall<Promise<(), W>>) -> usize
    ensures allowed { MayEnd core.old.cell.permit call.stage → EndsCall core.old call.stage core.new }
    ensures refused { ¬ MayEnd core.old.cell.permit call.stage → core.new ≡ core.old }
    ensures made { result ≡ length core.new.wakes - length core.old.wakes }
{
    let before = core.wakes_ready();
    core.end_call_checked(call);
    core.wakes_ready().saturating_sub(before)
}
