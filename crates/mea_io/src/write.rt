ghost use Rattle.std.specs.Prelude.{◌≡◌, ◌++◌, ◌<◌, ◌≤◌, ◌⊎◌, ℕ, List, [], length, take, drop, OnOk, Some};
ghost use Rattle.mea_io.specs.Bytes.{Rose, HasWritten, HasWrittenPart};

use crate::sink::{PutFault, Sink};

/// Writes all of a text, as much of it at a time as the sink takes.
pub fn write_text<K: Sink>(sink: &mut K, text: &[u8]) -> Result<(), PutFault>
    ensures whole { OnOk result ((before : List ℕ) → K.taken sink.old ≡ Some before → HasWritten text.now before (K.taken sink.new)) }
    ensures part { (before : List ℕ) → K.taken sink.old ≡ Some before → HasWrittenPart text.now before (K.taken sink.new) }
    ensures failed { result ≡ Err PutFault.Failed → Rose (K.faults sink.old) (K.faults sink.new) }
    ensures faults { K.faults sink.old ≤ K.faults sink.new }
{
    let mut rest = text;
    while !rest.is_empty() {
        match sink.put(rest) {
            Ok(count) => rest = &rest[count..],
            Err(fault) => return Err(fault),
        }
    }
    Ok(())
}
