ghost use Rattle.std.specs.Prelude.{◌≡◌, cond, Some, None};
ghost use Rattle.mea_meet.specs.CountWaits.{borrowed_of};

use mea_meet_core::{GroupWait, LatchWait};

/// The wait of a future at a meeting point that counts.
#[derive(Drop)]
pub enum CountWait {
    /// For the signal. That of a plain future borrows a holder.
    Signal {
        wait: LatchWait,
        borrowed: Option<u64>,
    },
    /// For the end of the members.
    Members {
        wait: GroupWait,
    },
}

impl CountWait {
    /// The holder that it borrows.
    pub fn borrowed(&self) -> Option<u64>
        ensures { result ≡ borrowed_of self.now }
    {
        match self {
            CountWait::Signal { wait: _, borrowed } => *borrowed,
            CountWait::Members { wait: _ } => None,
        }
    }
}

/// The holder that a future borrows: this, where it is plain.
pub fn borrowed_if(plain: bool, k: u64) -> Option<u64>
    ensures { result ≡ cond plain (Some k) None }
{
    if plain { Some(k) } else { None }
}
