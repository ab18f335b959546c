ghost use Rattle.std.specs.Prelude.{◌≡◌, ◌≢◌, ◌↔◌, ◌⊎◌, ℕ, List, Some, IsTrue, map, string_bytes};
ghost use Rattle.mea_family.specs.declared.stop.Stop.{Stop as Why};
ghost use Rattle.mea_io.specs.Bytes.{Rose};
ghost use Rattle.mea_script.specs.Runs.{IsFault, Answers, Tells, IsTakenTo, line_of};
ghost use Rattle.mea_task_run.specs.Machine.{tasks_of};
ghost use Rattle.mea_task_run.specs.Rests.{TellsRest};
ghost use Rattle.mea_task_run.specs.Words.{IsTasks};

use crate::machine::TaskMachine;
use mea_io::{Sink, Source};
use mea_script::{Status, play_script};
use std::alloc::Global;

/// Runs a program of tasks, with the word `tasks`, and writes what has become of it.
///
/// A source or a sink that tells no bytes has the clauses that speak of none. It takes memory for two pieces of the script, for
/// what lives, and for the text at the end.
pub fn run_tasks<S: Source, K: Sink>(
    alloc: Global,
    words: &[String],
    source: &mut S,
    sink: &mut K,
) -> Status
    ensures usage { (result ≡ Status.Usage) ↔ (¬ IsTasks (map string_bytes words.now)) }
    ensures untouched { result ≡ Status.Usage → (source.new ≡ source.old) × (sink.new ≡ sink.old) }
    ensures read_fault { result ≡ Status.ReadFault → Rose (S.faults source.old) (S.faults source.new) }
    ensures write_fault { result ≡ Status.WriteFault → Rose (K.faults sink.old) (K.faults sink.new) }
    ensures stopped { (at : ℕ) (cause : Why) → result ≢ Status.Stopped at cause }

    // Where the source tells its bytes, and where the sink tells them too.
    ensures status { (script : List ℕ) → IsTasks (map string_bytes words.now) → S.left source.old ≡ Some script → IsFault result ⊎ (result ≡ (tasks_of script).status) }
    ensures text { (script before : List ℕ) → IsTasks (map string_bytes words.now) → S.left source.old ≡ Some script → K.taken sink.old ≡ Some before
        → Tells (tasks_of script) result before (K.taken sink.new) }

    // The same where no read and no write failed.
    ensures whole { (script before : List ℕ) → IsTasks (map string_bytes words.now) → S.left source.old ≡ Some script → K.taken sink.old ≡ Some before
        → ¬ Rose (S.faults source.old) (S.faults source.new) → ¬ Rose (K.faults sink.old) (K.faults sink.new)
        → (result ≡ Status.NoMemory) ⊎ Answers (tasks_of script) result before (K.taken sink.new) }

    // At the end of the input the text is that of a machine at rest.
    ensures rests { (script : List ℕ) → IsTasks (map string_bytes words.now) → S.left source.old ≡ Some script → result ≡ Status.Done → TellsRest (tasks_of script) }

    // Nothing more is taken after the line that ends the text.
    ensures taken_to { (script : List ℕ) (n : ℕ) → IsTasks (map string_bytes words.now) → S.left source.old ≡ Some script → line_of result ≡ Some n
        → (left : List ℕ) × (S.left source.new ≡ Some left) × IsTakenTo n script left }
{
    if !is_tasks(words) {
        return Status::Usage;
    }
    let machine = TaskMachine::new(alloc);
    play_script(alloc, machine, source, sink)
}

// Whether the words are the one word `tasks`.
fn is_tasks(words: &[String]) -> bool
    ensures { IsTrue result ↔ IsTasks (map string_bytes words.now) }
{
    match words {
        [word] => word.as_str() == "tasks",
        _ => false,
    }
}
