ghost use Rattle.std.specs.Prelude.{◌≡◌, ◌≢◌, ◌↔◌, ◌⊎◌, ℕ, List, Some, IfSome, IsTrue, map, string_bytes};
ghost use Rattle.mea_family.specs.declared.stop.Stop.{Stop as Why};
ghost use Rattle.mea_io.specs.Bytes.{Rose};
ghost use Rattle.mea_script.specs.Runs.{IsFault, Answers, Tells, IsTakenTo, line_of};
ghost use Rattle.mea_pool_run.specs.Script.{IsSize, IsPool, IsCommand, pool_of};
ghost use Rattle.mea_pool_run.specs.Orderly.{AreOrderly};

use crate::machine::PoolMachine;
use mea_io::{Sink, Source};
use mea_script::{Status, play_script};
use mea_text::{Numbers, command_numbers};
use std::alloc::Global;

/// The most resources of a pool.
const MOST: u64 = 1_000_000;

/// Plays a script of a pool: with `pool` and a number, of 1 to 1000000 resources, it reads a script, plays it, and writes
/// the text of its replies, which the last line ends. With any other words it reads and writes nothing.
///
/// It takes memory for two pieces, the longest reply, the resources and what waits and is lent. A source or a sink that
/// tells no bytes has the clauses that speak of none.
pub fn run_pool<S: Source, K: Sink>(
    alloc: Global,
    words: &[String],
    source: &mut S,
    sink: &mut K,
) -> Status
    ensures usage { (result ≡ Status.Usage) ↔ (¬ IsCommand (map string_bytes words.now)) }
    ensures untouched { result ≡ Status.Usage → (source.new ≡ source.old) × (sink.new ≡ sink.old) }
    ensures read_fault { result ≡ Status.ReadFault → Rose (S.faults source.old) (S.faults source.new) }
    ensures write_fault { result ≡ Status.WriteFault → Rose (K.faults sink.old) (K.faults sink.new) }
    ensures stopped { (at : ℕ) (cause : Why) → result ≢ Status.Stopped at cause }

    // Where the source tells its bytes, and where the sink tells them too.
    ensures status { (size : ℕ) (script : List ℕ) → IsPool (map string_bytes words.now) size → S.left source.old ≡ Some script → IsFault result ⊎ (result ≡ (pool_of size script).status) }
    ensures text { (size : ℕ) (script before : List ℕ) → IsPool (map string_bytes words.now) size → S.left source.old ≡ Some script → K.taken sink.old ≡ Some before
        → Tells (pool_of size script) result before (K.taken sink.new) }

    // The same where no read and no write failed.
    ensures whole { (size : ℕ) (script before : List ℕ) → IsPool (map string_bytes words.now) size → S.left source.old ≡ Some script → K.taken sink.old ≡ Some before
        → ¬ Rose (S.faults source.old) (S.faults source.new) → ¬ Rose (K.faults sink.old) (K.faults sink.new)
        → (result ≡ Status.NoMemory) ⊎ Answers (pool_of size script) result before (K.taken sink.new) }

    // At every event of the script that is played, whose replies its text tells.
    ensures orderly { (size : ℕ) (script : List ℕ) → IsPool (map string_bytes words.now) size → S.left source.old ≡ Some script → AreOrderly size script }

    // Nothing more is taken after the line that ends the text.
    ensures taken_to { (size : ℕ) (script : List ℕ) (n : ℕ) → IsPool (map string_bytes words.now) size → S.left source.old ≡ Some script → line_of result ≡ Some n
        → (left : List ℕ) × (S.left source.new ≡ Some left) × IsTakenTo n script left }
{
    match size_of(words) {
        Some(size) => play(alloc, size, source, sink),
        None => Status::Usage,
    }
}

/// The number of resources, where the words are `pool` and it.
fn size_of(words: &[String]) -> Option<usize>
    ensures pool { (size : ℕ) → (result ≡ Some size) ↔ IsPool (map string_bytes words.now) size }
{
    match command_numbers(b"pool", words)? {
        Numbers::One(size) => in_range(size),
        _ => None,
    }
}

fn in_range(size: u64) -> Option<usize>
    ensures range { IfSome result (λ n. (n ≡ size) × IsSize size) }
    ensures all { IsSize size → result ≡ Some size }
{
    if !is_in_range(size) {
        return None;
    }
    Some(size as usize)
}

fn is_in_range(size: u64) -> bool
    ensures { IsTrue result ↔ IsSize size }
{
    size >= 1 && size <= MOST
}

/// Plays the script that the source holds on a pool of so many resources, and writes its text to the sink.
fn play<S: Source, K: Sink>(alloc: Global, size: usize, source: &mut S, sink: &mut K) -> Status
    ensures usage { result ≢ Status.Usage }
    ensures read_fault { result ≡ Status.ReadFault → Rose (S.faults source.old) (S.faults source.new) }
    ensures write_fault { result ≡ Status.WriteFault → Rose (K.faults sink.old) (K.faults sink.new) }
    ensures stopped { (at : ℕ) (cause : Why) → result ≢ Status.Stopped at cause }
    ensures status { (script : List ℕ) → S.left source.old ≡ Some script → IsFault result ⊎ (result ≡ (pool_of size script).status) }
    ensures text { (script before : List ℕ) → S.left source.old ≡ Some script → K.taken sink.old ≡ Some before → Tells (pool_of size script) result before (K.taken sink.new) }
    ensures whole { (script before : List ℕ) → S.left source.old ≡ Some script → K.taken sink.old ≡ Some before
        → ¬ Rose (S.faults source.old) (S.faults source.new) → ¬ Rose (K.faults sink.old) (K.faults sink.new)
        → (result ≡ Status.NoMemory) ⊎ Answers (pool_of size script) result before (K.taken sink.new) }
    ensures taken_to { (script : List ℕ) (n : ℕ) → S.left source.old ≡ Some script → line_of result ≡ Some n
        → (left : List ℕ) × (S.left source.new ≡ Some left) × IsTakenTo n script left }
{
    match PoolMachine::new(alloc, size) {
        Ok(machine) => play_script(alloc, machine, source, sink),
        Err(_) => Status::NoMemory,
    }
}
