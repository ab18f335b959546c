ghost use Rattle.std.specs.Prelude.{◌≡◌, ◌≢◌, ◌↔◌, ◌⊎◌, ◌<◌, ◌≤◌, ◌^◌, ℕ, List, Some, IsTrue, map, string_bytes};
ghost use Rattle.mea_io.specs.Bytes.{Rose};
ghost use Rattle.mea_run.specs.Script.{status_of, IsBalanced, LosesNoWake, GrantsInOrder};
ghost use Rattle.mea_hall.specs.Front.{front_of, IsLegal};
ghost use Rattle.mea_run.specs.Generated.{script_of, PollsWait};
ghost use Rattle.mea_run.specs.Runs.{IsPlay, IsMake, IsCommand, IsFault, IsWriteFault, IsAnswered, IsTold, IsSummarized, IsMade, IsTakenTo, line_of};

use crate::generator::generated_scripts_are_legal;
use crate::machine::PlayMachine;
use crate::making::summary;
use mea_family::Stop;
use mea_hall::{grants_follow_first_polls, no_wake_is_lost, permits_balance};
use mea_io::{Sink, Source};
use mea_lines::long_lines_are_no_events;
use mea_script::{Status, play_script, write_last};
use mea_text::numbers_of_command;
use std::alloc::Global;

/// The most rounds of a generated script.
const MOST_ROUNDS: u64 = 300_000;

/// All that the program does, with the words of its command line after its name. With `play` it reads a
/// script, plays it, and writes the text of its replies, which the last line ends. With `make` and two
/// numbers, a seed and at most 300000 rounds, it plays a generated script, of which it reads nothing, and
/// writes a summary. With any other words it reads and writes nothing.
///
/// It takes memory for two pieces, the longest reply and what the halls hold; a generated script is played as it
/// is made. A source or a sink that tells no bytes has the clauses that speak of none.
pub fn run<S: Source, K: Sink>(
    alloc: Global,
    words: &[String],
    source: &mut S,
    sink: &mut K,
) -> Status
    ensures usage { (result ≡ Status.Usage) ↔ (¬ IsCommand (map string_bytes words.now)) }
    ensures untouched { result ≡ Status.Usage → (source.new ≡ source.old) × (sink.new ≡ sink.old) }
    ensures read_fault { result ≡ Status.ReadFault → Rose (S.faults source.old) (S.faults source.new) }
    ensures write_fault { result ≡ Status.WriteFault → Rose (K.faults sink.old) (K.faults sink.new) }
    ensures cause { (at : ℕ) → result ≢ Status.Stopped at Stop.NoMemory }

    // Where the source tells its bytes, and where the sink tells them too.
    ensures status { (script : List ℕ) → IsPlay (map string_bytes words.now) → S.left source.old ≡ Some script → IsFault result ⊎ (result ≡ status_of script) }
    ensures text { (script before : List ℕ) → IsPlay (map string_bytes words.now) → S.left source.old ≡ Some script → K.taken sink.old ≡ Some before → IsTold script result before (K.taken sink.new) }

    // The same where no read and no write failed.
    ensures whole { (script before : List ℕ) → IsPlay (map string_bytes words.now) → S.left source.old ≡ Some script → K.taken sink.old ≡ Some before
        → ¬ Rose (S.faults source.old) (S.faults source.new) → ¬ Rose (K.faults sink.old) (K.faults sink.new)
        → (result ≡ Status.NoMemory) ⊎ IsAnswered script result before (K.taken sink.new) }

    // At every point of the script that is played, whose replies its text tells.
    ensures balance { (script : List ℕ) → IsPlay (map string_bytes words.now) → S.left source.old ≡ Some script → IsBalanced script }
    ensures woken { (script : List ℕ) → IsPlay (map string_bytes words.now) → S.left source.old ≡ Some script → LosesNoWake script }
    ensures order { (script : List ℕ) → IsPlay (map string_bytes words.now) → S.left source.old ≡ Some script → GrantsInOrder script }

    // Nothing more is taken after the line that ends the text: it had not ended before the last piece.
    ensures taken_to { (script : List ℕ) (n : ℕ) → IsPlay (map string_bytes words.now) → S.left source.old ≡ Some script → line_of result ≡ Some n
        → (left : List ℕ) × (S.left source.new ≡ Some left) × IsTakenTo n script left }

    // With `make` nothing is read, the generated script is legal and its polls wait, and its summary is written.
    ensures unread { (seed rounds : ℕ) → IsMake (map string_bytes words.now) seed rounds → source.new ≡ source.old }
    ensures legal { (seed rounds : ℕ) → IsMake (map string_bytes words.now) seed rounds → IsLegal (script_of seed rounds) × PollsWait (script_of seed rounds) (front_of (script_of seed rounds)).replies }
    ensures made { (seed rounds : ℕ) → IsMake (map string_bytes words.now) seed rounds → IsWriteFault result ⊎ (result ≡ Status.Done) }
    ensures summary { (seed rounds : ℕ) (before : List ℕ) → IsMake (map string_bytes words.now) seed rounds → K.taken sink.old ≡ Some before → IsMade seed rounds result before (K.taken sink.new) }
    ensures summary_whole { (seed rounds : ℕ) (before : List ℕ) → IsMake (map string_bytes words.now) seed rounds → K.taken sink.old ≡ Some before
        → ¬ Rose (K.faults sink.old) (K.faults sink.new)
        → (result ≡ Status.NoMemory) ⊎ IsSummarized seed rounds result before (K.taken sink.new) }
{
    permits_balance();
    no_wake_is_lost();
    grants_follow_first_polls();
    generated_scripts_are_legal();
    if is_play(words) {
        return play(alloc, source, sink);
    }
    match seed_and_rounds(words) {
        Some((seed, rounds)) => make(alloc, seed, rounds, sink),
        None => Status::Usage,
    }
}

fn is_play(words: &[String]) -> bool
    ensures { IsTrue result ↔ IsPlay (map string_bytes words.now) }
{
    match words {
        [word] => word.as_str() == "play",
        _ => false,
    }
}

/// The two numbers of `make`, where the words are those of it.
fn seed_and_rounds(words: &[String]) -> Option<(u64, u32)>
    ensures { (seed rounds : ℕ) → (result ≡ Some (seed, rounds)) ↔ IsMake (map string_bytes words.now) seed rounds }
{
    let (seed, rounds) = numbers_of_command(b"make", words)?;
    if rounds > MOST_ROUNDS {
        return None;
    }
    Some((seed, rounds as u32))
}

/// Plays the script that the source holds, and writes its text to the sink.
fn play<S: Source, K: Sink>(alloc: Global, source: &mut S, sink: &mut K) -> Status
    ensures usage { result ≢ Status.Usage }
    ensures read_fault { result ≡ Status.ReadFault → Rose (S.faults source.old) (S.faults source.new) }
    ensures write_fault { result ≡ Status.WriteFault → Rose (K.faults sink.old) (K.faults sink.new) }
    ensures cause { (at : ℕ) → result ≢ Status.Stopped at Stop.NoMemory }
    ensures status { (script : List ℕ) → S.left source.old ≡ Some script → IsFault result ⊎ (result ≡ status_of script) }
    ensures text { (script before : List ℕ) → S.left source.old ≡ Some script → K.taken sink.old ≡ Some before → IsTold script result before (K.taken sink.new) }
    ensures taken_to { (script : List ℕ) (n : ℕ) → S.left source.old ≡ Some script → line_of result ≡ Some n
        → (left : List ℕ) × (S.left source.new ≡ Some left) × IsTakenTo n script left }
{
    long_lines_are_no_events();
    let machine = PlayMachine::new(alloc);
    play_script(alloc, machine, source, sink)
}

/// Plays a generated script, and writes its summary to the sink.
fn make<K: Sink>(alloc: Global, seed: u64, rounds: u32, sink: &mut K) -> Status
    requires { rounds ≤ 300000 }
    ensures write_fault { result ≡ Status.WriteFault → Rose (K.faults sink.old) (K.faults sink.new) }
    ensures made { IsWriteFault result ⊎ (result ≡ Status.Done) }
    ensures summary { (before : List ℕ) → K.taken sink.old ≡ Some before → IsMade seed rounds result before (K.taken sink.new) }
{
    let text = match summary(alloc, seed, rounds) {
        Ok(text) => text,
        Err(_) => return Status::NoMemory,
    };
    write_last(sink, text.as_slice(), Status::Done)
}
