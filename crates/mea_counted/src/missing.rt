ghost use Rattle.std.specs.Prelude.{◌≡◌};

use thiserror::Error;

/// Not all parts of the ledger came back: permits were dropped, or are still out. Only a close makes one.
#[derive(Clone, Copy, Debug, PartialEq, Eq, Error)]
#[error("{parts} of {of} parts of the ledger came back")]
pub struct Missing {
    /// The parts behind the lock and those of the permits that were given.
    pub parts: u64,
    /// The parts of the ledger.
    pub of: u64,
    // So that no other crate can make one.
    _private: (),
}

impl Missing {
    pub(crate) fn new(parts: u64, of: u64) -> Missing
        ensures { (result.parts ≡ parts) × (result.of ≡ of) }
    {
        Missing {
            parts,
            of,
            _private: (),
        }
    }
}
