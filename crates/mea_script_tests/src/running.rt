ghost use Rattle.std.specs.Prelude.{◌≡◌, ◌≢◌, ◌↔◌, ◌⊎◌, ℕ, List, Some, IsTrue, map, string_bytes};
ghost use Rattle.mea_family.specs.declared.stop.Stop.{Stop as Why};
ghost use Rattle.mea_io.specs.Bytes.{Rose};
ghost use Rattle.mea_script.specs.Runs.{IsFault, Answers, Tells, IsTakenTo, line_of};
ghost use Rattle.mea_script_tests.specs.Doors.{IsDoors, doors_of};

use crate::doors::Doors;
use mea_io::{Sink, Source};
use mea_script::{Status, play_script};
use std::alloc::Global;

/// Plays a script of doors, with the word `doors`, and writes its text.
pub fn run_doors<S: Source, K: Sink>(
    alloc: Global,
    words: &[String],
    source: &mut S,
    sink: &mut K,
) -> Status
    ensures usage { (result ≡ Status.Usage) ↔ (¬ IsDoors (map string_bytes words.now)) }
    ensures untouched { result ≡ Status.Usage → (source.new ≡ source.old) × (sink.new ≡ sink.old) }
    ensures read_fault { result ≡ Status.ReadFault → Rose (S.faults source.old) (S.faults source.new) }
    ensures write_fault { result ≡ Status.WriteFault → Rose (K.faults sink.old) (K.faults sink.new) }
    ensures stopped { (at : ℕ) (cause : Why) → result ≢ Status.Stopped at cause }

    // Where the source tells its bytes, and where the sink tells them too.
    ensures status { (script : List ℕ) → IsDoors (map string_bytes words.now) → S.left source.old ≡ Some script → IsFault result ⊎ (result ≡ (doors_of script).status) }
    ensures text { (script before : List ℕ) → IsDoors (map string_bytes words.now) → S.left source.old ≡ Some script → K.taken sink.old ≡ Some before
        → Tells (doors_of script) result before (K.taken sink.new) }

    // The same where no read and no write failed.
    ensures whole { (script before : List ℕ) → IsDoors (map string_bytes words.now) → S.left source.old ≡ Some script → K.taken sink.old ≡ Some before
        → ¬ Rose (S.faults source.old) (S.faults source.new) → ¬ Rose (K.faults sink.old) (K.faults sink.new)
        → (result ≡ Status.NoMemory) ⊎ Answers (doors_of script) result before (K.taken sink.new) }

    // Nothing more is taken after the line that ends the text.
    ensures taken_to { (script : List ℕ) (n : ℕ) → IsDoors (map string_bytes words.now) → S.left source.old ≡ Some script → line_of result ≡ Some n
        → (left : List ℕ) × (S.left source.new ≡ Some left) × IsTakenTo n script left }
{
    if !is_doors(words) {
        return Status::Usage;
    }
    play_script(alloc, Doors { opened: 0 }, source, sink)
}

fn is_doors(words: &[String]) -> bool
    ensures { IsTrue result ↔ IsDoors (map string_bytes words.now) }
{
    match words {
        [word] => word.as_str() == "doors",
        _ => false,
    }
}
