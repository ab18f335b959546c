ghost use Rattle.std.specs.Prelude.{◌≡◌, ◌≤◌, ◌⊎◌, ℕ, List, length, IfOk, Some};
ghost use Rattle.mea_io.specs.Bytes.{Rose};
ghost use Rattle.mea_script.specs.Runs.{IsWriteFault, IsClosed};

use crate::status::Status;
use mea_base::NoMemory;
use mea_io::{PutFault, Sink, write_text};
use std::alloc::Global;

/// How many bytes are asked for at a time.
pub const PIECE: usize = 65_536;

/// A buffer of so many bytes.
pub fn zeros(alloc: Global, n: usize) -> Result<Vec<u8>, NoMemory>
    ensures { IfOk result (λ buffer. length buffer.items ≡ n) }
{
    match vec![in alloc; 0u8; n] {
        Ok(buffer) => Ok(buffer),
        Err(_) => Err(NoMemory),
    }
}

/// Writes the last text of a run that ends so, and answers how it ended.
pub fn write_last<K: Sink>(sink: &mut K, text: &[u8], status: Status) -> Status
    ensures told { (before : List ℕ) → K.taken sink.old ≡ Some before → IsClosed text.now status result before (K.taken sink.new) }
    ensures same { IsWriteFault result ⊎ (result ≡ status) }
    ensures write_fault { result ≡ Status.WriteFault → (status ≡ Status.WriteFault) ⊎ Rose (K.faults sink.old) (K.faults sink.new) }
    ensures faults { K.faults sink.old ≤ K.faults sink.new }
{
    match write_text(sink, text) {
        Ok(()) => status,
        Err(PutFault::Failed) => Status::WriteFault,
        Err(PutFault::NoMemory) => Status::NoMemory,
    }
}
