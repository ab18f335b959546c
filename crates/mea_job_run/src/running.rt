ghost use Rattle.std.specs.Prelude.{◌≡◌, ◌≢◌, ◌↔◌, ◌⊎◌, ◌≤◌, ℕ, List, Some, IfSome, IsTrue, map, string_bytes};
ghost use Rattle.mea_family.specs.declared.stop.Stop.{Stop as Why};
ghost use Rattle.mea_io.specs.Bytes.{Rose};
ghost use Rattle.mea_script.specs.Runs.{IsFault, Answers, Tells, IsTakenTo, line_of};
ghost use Rattle.mea_script.specs.Told.{told_by};
ghost use Rattle.mea_job_core.specs.Service.{new_service};
ghost use Rattle.mea_job_run.specs.Machine.{jobs_told, core_rules};
ghost use Rattle.mea_job_run.specs.Runs.{IsInRange, IsJobs, IsCommand, AreOrderly};

use crate::machine::JobMachine;
use mea_io::{Sink, Source};
use mea_job_core::JobCore;
use mea_script::{Status, play_script};
use mea_text::{Numbers, command_numbers};
use std::alloc::Global;

/// The most permits, queued jobs and results.
const MOST: u64 = 1_000_000;

/// All that the program does, with the words of its command line after its name. With `jobs` and three numbers, each from
/// 1 to 1000000, it plays a script of jobs on a service of so many permits, with at most so many queued jobs and results,
/// and writes the text of the replies, which the last line ends. With any other words it reads and writes nothing.
///
/// It takes memory for two pieces, the results, and the jobs that are queued or run. A source or a sink that tells no bytes
/// has the clauses that speak of none.
pub fn run_jobs<S: Source, K: Sink>(
    alloc: Global,
    words: &[String],
    source: &mut S,
    sink: &mut K,
) -> Status
    ensures usage { (result ≡ Status.Usage) ↔ (¬ IsCommand (map string_bytes words.now)) }
    ensures untouched { result ≡ Status.Usage → (source.new ≡ source.old) × (sink.new ≡ sink.old) }
    ensures read_fault { result ≡ Status.ReadFault → Rose (S.faults source.old) (S.faults source.new) }
    ensures write_fault { result ≡ Status.WriteFault → Rose (K.faults sink.old) (K.faults sink.new) }
    ensures stopped { (at : ℕ) (cause : Why) → result ≢ Status.Stopped at cause }

    // Where the source tells its bytes, and where the sink tells them too.
    ensures status { (permits most_queued results : ℕ) (script : List ℕ) → IsJobs (map string_bytes words.now) permits most_queued results → S.left source.old ≡ Some script
        → IsFault result ⊎ (result ≡ (jobs_told permits most_queued results script).status) }
    ensures text { (permits most_queued results : ℕ) (script before : List ℕ) → IsJobs (map string_bytes words.now) permits most_queued results → S.left source.old ≡ Some script
        → K.taken sink.old ≡ Some before → Tells (jobs_told permits most_queued results script) result before (K.taken sink.new) }

    // The same where no read and no write failed.
    ensures whole { (permits most_queued results : ℕ) (script before : List ℕ) → IsJobs (map string_bytes words.now) permits most_queued results → S.left source.old ≡ Some script
        → K.taken sink.old ≡ Some before → ¬ Rose (S.faults source.old) (S.faults source.new) → ¬ Rose (K.faults sink.old) (K.faults sink.new)
        → (result ≡ Status.NoMemory) ⊎ Answers (jobs_told permits most_queued results script) result before (K.taken sink.new) }

    // At every event of the script that is played, whose replies its text tells.
    ensures orderly { (permits most_queued results : ℕ) (script : List ℕ) → IsJobs (map string_bytes words.now) permits most_queued results → S.left source.old ≡ Some script
        → AreOrderly permits most_queued results script }

    // Nothing more is taken after the line that ends the text.
    ensures taken_to { (script : List ℕ) (n : ℕ) → IsCommand (map string_bytes words.now) → S.left source.old ≡ Some script → line_of result ≡ Some n
        → (left : List ℕ) × (S.left source.new ≡ Some left) × IsTakenTo n script left }
{
    match numbers_of_jobs(words) {
        Some((permits, most_queued, results)) => play(
            alloc,
            permits,
            most_queued,
            results,
            source,
            sink,
        ),
        None => Status::Usage,
    }
}

/// The three numbers of `jobs`, where the words are those of it.
fn numbers_of_jobs(words: &[String]) -> Option<(usize, usize, usize)>
    ensures jobs { (permits most_queued results : ℕ) → (result ≡ Some (permits, most_queued, results)) ↔ IsJobs (map string_bytes words.now) permits most_queued results }
{
    match command_numbers(b"jobs", words)? {
        Numbers::Three(permits, most_queued, results) => in_range(permits, most_queued, results),
        _ => None,
    }
}

fn in_range(permits: u64, most_queued: u64, results: u64) -> Option<(usize, usize, usize)>
    ensures range { IfSome result (λ r. (r ≡ (permits, most_queued, results)) × IsInRange permits × IsInRange most_queued × IsInRange results) }
    ensures all { IsInRange permits × IsInRange most_queued × IsInRange results → result ≡ Some (permits, most_queued, results) }
{
    if !is_in_range(permits) || !is_in_range(most_queued) || !is_in_range(results) {
        return None;
    }
    Some((permits as usize, most_queued as usize, results as usize))
}

fn is_in_range(number: u64) -> bool
    ensures { IsTrue result ↔ IsInRange number }
{
    number >= 1 && number <= MOST
}

/// Plays the script that the source holds on a new service, and writes its text to the sink.
fn play<S: Source, K: Sink>(
    alloc: Global,
    permits: usize,
    most_queued: usize,
    results: usize,
    source: &mut S,
    sink: &mut K,
) -> Status
    requires { IsInRange permits × IsInRange most_queued × IsInRange results }
    ensures usage { result ≢ Status.Usage }
    ensures read_fault { result ≡ Status.ReadFault → Rose (S.faults source.old) (S.faults source.new) }
    ensures write_fault { result ≡ Status.WriteFault → Rose (K.faults sink.old) (K.faults sink.new) }
    ensures stopped { (at : ℕ) (cause : Why) → result ≢ Status.Stopped at cause }
    ensures status { (script : List ℕ) → S.left source.old ≡ Some script → IsFault result ⊎ (result ≡ (jobs_told permits most_queued results script).status) }
    ensures text { (script before : List ℕ) → S.left source.old ≡ Some script → K.taken sink.old ≡ Some before
        → Tells (jobs_told permits most_queued results script) result before (K.taken sink.new) }
    ensures whole { (script before : List ℕ) → S.left source.old ≡ Some script → K.taken sink.old ≡ Some before
        → ¬ Rose (S.faults source.old) (S.faults source.new) → ¬ Rose (K.faults sink.old) (K.faults sink.new)
        → (result ≡ Status.NoMemory) ⊎ Answers (jobs_told permits most_queued results script) result before (K.taken sink.new) }
    ensures taken_to { (script : List ℕ) (n : ℕ) → S.left source.old ≡ Some script → line_of result ≡ Some n
        → (left : List ℕ) × (S.left source.new ≡ Some left) × IsTakenTo n script left }
{
    let Ok(core) = JobCore::new(alloc, permits, most_queued, results) else {
        return Status::NoMemory;
    };
    play_script(alloc, JobMachine { core }, source, sink)
}
