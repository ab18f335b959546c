ghost use Rattle.std.specs.Prelude.{◌≡◌, None};
ghost use Rattle.mea_meet_model.specs.Counts as model;
ghost use Rattle.mea_meet.specs.CountWaits.{slot_of, awaits_of};

use crate::count_wait::CountWait;
use mea_meet_core::{GroupWait, LatchWait};

/// What a hall keeps of a future at a meeting point that counts.
#[derive(Drop)]
pub struct WaitEntry {
    pub point: u64,
    pub wait: CountWait,
}

impl WaitEntry {
    /// A new future on the signal of a point, which borrows a holder if it is plain.
    pub fn on_signal(point: u64, borrowed: Option<u64>) -> Self
        ensures point { result.point ≡ point }
        ensures new { slot_of result.wait ≡ None }
        ensures awaits { awaits_of result.wait ≡ model.Signal borrowed }
    {
        WaitEntry {
            point,
            wait: CountWait::Signal {
                wait: LatchWait::new(),
                borrowed,
            },
        }
    }

    /// A new future on the end of the members of a point.
    pub fn on_members(point: u64) -> Self
        ensures point { result.point ≡ point }
        ensures new { slot_of result.wait ≡ None }
        ensures awaits { awaits_of result.wait ≡ model.Members }
    {
        WaitEntry {
            point,
            wait: CountWait::Members {
                wait: GroupWait::new(),
            },
        }
    }
}
