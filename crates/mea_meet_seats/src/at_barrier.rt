ghost use Rattle.std.specs.Prelude.{ℕ, ◌≡◌, ◌+◌, ◌*◌, ◌<◌, Option, true, false};
ghost use Rattle.mea_sets.specs.declared.place.Place.{Place};
ghost use Rattle.mea_sets.specs.WaitSet.{with_waker};
ghost use Rattle.mea_meet_core.specs.declared.barrier_wait.BarrierWait.{BarrierWait};
ghost use Rattle.mea_meet_core.specs.Barrier.{HasCompleted, is_open, is_registered};
ghost use Rattle.mea_meet_seats.specs.declared.seat.Seat.{Seat};

use crate::seat::Seat;
use mea_meet_core::{BarrierCore, BarrierWait};

/// Ends a wait at a barrier: its arrival stays, and its waker goes. It takes no memory.
///
/// Its place is not given back, since whoever arrives has a place of its own: a round has fewer of them than make it.
pub fn withdraw_from<W: Drop>(core: &mut BarrierCore<Seat<W>>, wait: BarrierWait)
    ensures unpolled { wait ≡ BarrierWait.New → core.new ≡ core.old }
    ensures done { wait ≡ BarrierWait.Done → core.new ≡ core.old }
    ensures foreign { is_open core.old wait ≡ false → core.new ≡ core.old }
    ensures absent { is_registered core.old wait ≡ false → core.new ≡ core.old }
    ensures over { (round : ℕ) (slot : Option Place) → wait ≡ BarrierWait.Arrived round slot → HasCompleted core.old round → core.new ≡ core.old }
    ensures waits { (round : ℕ) (slot : Option Place) → wait ≡ BarrierWait.Arrived round slot → is_open core.old wait ≡ true
        → core.old.arrivals < (round + 1) * core.old.size → is_registered core.old wait ≡ true
        → core.new ≡ record core.old { waiting = with_waker core.old.waiting slot Seat.Vacant } }
{
    let mut wait = wait;
    if core.is_registered(&wait) && core.poll_allowed(&wait) {
        let _ = core.poll(&mut wait, Seat::Vacant);
    }
}
