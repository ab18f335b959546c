//! A barrier that threads and tasks share: `mea::barrier`.
ghost use Rattle.std.specs.Prelude.{◌≡◌, ◌-◌, ⊤, length};
ghost use Rattle.mea_meet_core.specs.Barrier.{Polls, usable_wait};
ghost use Rattle.mea_meet_seats.specs.declared.seat.Seat.{Seat};

use mea_base::{Poll, Wake};
pub use mea_meet_core::BarrierWaitResult;
use mea_meet_core::{BarrierCore, BarrierFault, BarrierWait as Place};
use mea_meet_seats::{Seat, withdraw_from};
use mea_wait::{End, PollFault, Polled, Unpolled, Waits, hand_out};
use std::alloc::Global;
use std::sync::{Mutex, Wait};

/// A place where n meet, round after round: the last to arrive leads, and lets the others go on. It ports
/// `mea::barrier::Barrier`.
pub struct Barrier<W> {
    core: Mutex<BarrierCore<Seat<W>>>,
}

// Written out: a derived one is proved anew in each crate that hands a value of this type to a generic function.
impl<W: Drop> Drop for Barrier<W> {
    fn drop(self) {
        let Barrier { core: _ } = self;
    }
}

/// The future of `Barrier::wait`. It must be polled to its end, or ended; ended, its arrival stays and its waker goes.
pub struct BarrierWait<'a, W> {
    of: &'a Barrier<W>,
    place: Place,
}

// Polls a wait in one step under the lock, and tells how many wakers that made ready.
fn poll<W: Drop>(
    core: &mut BarrierCore<Seat<W>>,
    place: &mut Place,
    waker: W,
) -> (
    Result<Poll<BarrierWaitResult>, BarrierFault<Seat<W>>>,
    usize,
)
    ensures polls { Polls core.old (usable_wait core.old place.old) (Seat.Taken waker) result.0 core.new place.new }
    ensures made { result.1 ≡ length core.new.wakes - length core.old.wakes }
{
    let before = core.wakes_ready();
    let answer = core.poll_checked(place, Seat::Taken(waker));
    (answer, core.wakes_ready().saturating_sub(before))
}

impl<W: Wake> Barrier<W> {
    /// A barrier for `n`, where 0 counts as 1. It takes no memory.
    pub fn new(alloc: Global, n: u32) -> Self {
        Barrier {
            core: Mutex::new(BarrierCore::new(alloc, n)),
        }
    }

    /// A wait that arrives at its first poll. It takes no memory.
    pub fn wait(&self) -> BarrierWait<'_, W> {
        BarrierWait {
            of: self,
            place: Place::new(),
        }
    }
}

impl<'a, W: Wake> End for BarrierWait<'a, W> {
    fn end<R: Wait>(self, rt: &R) {
        let BarrierWait { of, place } = self;
        withdraw_from(&mut *of.core.lock(rt), place);
    }
}

impl<'a, W: Wake> Waits<W, BarrierWaitResult> for BarrierWait<'a, W> {
    ghost refuses = { λ _. ⊤ };

    fn poll<R: Wait>(
        self,
        rt: &R,
        waker: W,
    ) -> Result<Polled<Self, BarrierWaitResult>, Unpolled<Self, W>> {
        let BarrierWait { of, mut place } = self;
        let (answer, made) = poll(&mut *of.core.lock(rt), &mut place, waker);
        hand_out(made, || of.core.lock(rt).next_wake());
        match answer {
            Ok(Poll::Ready(result)) => Ok(Polled::Ready(result)),
            Ok(Poll::Pending) => Ok(Polled::Pending(BarrierWait { of, place })),
            Err(BarrierFault::NoMemory(seat)) => Err(Unpolled {
                future: BarrierWait { of, place },
                waker: seat.waker(),
                fault: PollFault::NoMemory,
            }),
            Err(BarrierFault::Overflow(seat)) => Err(Unpolled {
                future: BarrierWait { of, place },
                waker: seat.waker(),
                fault: PollFault::Overflow,
            }),
        }
    }
}
