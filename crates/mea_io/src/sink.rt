ghost use Rattle.std.specs.Prelude.{◌≡◌, ◌<◌, ◌≤◌, ℕ, List, Option, length, IfOk, OnErr};
ghost use Rattle.mea_io.specs.Bytes.{Rose, Puts};

use thiserror::Error;

/// Why nothing was written.
#[derive(Clone, Copy, Debug, PartialEq, Eq, Error)]
pub enum PutFault {
    /// The write failed.
    #[error("the write failed")]
    Failed,
    /// There was no memory for what was to be written.
    #[error("out of memory")]
    NoMemory,
}

/// What takes the bytes of a text.
pub trait Sink {
    /// The bytes that were taken, where the sink tells them.
    ghost taken: { Self → Option (List ℕ) };

    /// How many writes have failed. It never falls, and at its greatest value it stands still.
    ghost faults: { Self → ℕ };

    /// Takes bytes from the front of the piece, and answers their number. After a fault nothing of the piece
    /// was taken.
    fn put(&mut self, piece: &[u8]) -> Result<usize, PutFault>
        ensures faults { faults self.old ≤ faults self.new }
        ensures failed { result ≡ Err PutFault.Failed → Rose (faults self.old) (faults self.new) }
        ensures within { IfOk result (λ k. k ≤ length piece.now) }
        ensures some { IfOk result (λ k. 0 < length piece.now → 0 < k) }
        ensures told { IfOk result (Puts (taken self.old) (taken self.new) piece.now) }
        ensures err { OnErr result (taken self.new ≡ taken self.old) };
}
