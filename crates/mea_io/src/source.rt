ghost use Rattle.std.specs.Prelude.{◌≡◌, ◌<◌, ◌≤◌, ℕ, List, Option, length, IfOk, OnErr};
ghost use Rattle.mea_io.specs.Bytes.{Rose, Takes};

use thiserror::Error;

/// A read that failed. Nothing was read.
#[derive(Clone, Copy, Debug, PartialEq, Eq, Error)]
#[error("the read failed")]
pub struct Failed;

/// What gives the bytes of a script.
pub trait Source {
    /// The bytes that are left, where the source tells them.
    ghost left: { Self → Option (List ℕ) };

    /// How many reads have failed. It never falls, and at its greatest value it stands still.
    ghost faults: { Self → ℕ };

    /// Puts the next bytes at the front of the buffer, and answers their number: 0 for a buffer with room
    /// exactly where no byte is left.
    fn take(&mut self, into: &mut [u8]) -> Result<usize, Failed>
        ensures faults { faults self.old ≤ faults self.new }
        ensures failed { OnErr result (Rose (faults self.old) (faults self.new)) }
        ensures within { IfOk result (λ k. k ≤ length into.old) }
        ensures told { IfOk result (Takes (left self.old) (left self.new) into.new) };
}
