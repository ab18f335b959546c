ghost use Rattle.std.specs.Prelude.{◌≡◌, ◌≢◌, ◌↔◌, ◌⊎◌, ◌+◌, ◌*◌, ◌<◌, ◌≤◌, ◌^◌, ◌++◌, ℕ, List, [], Some, IfOk, IfErr, IfSome, map, length, take, codes, string_bytes};
ghost use Rattle.mea_io.specs.Bytes.{Rose, HasWritten, HasWrittenPart};
ghost use Rattle.mea_recorded.specs.History.{History};
ghost use Rattle.mea_text.specs.Text.{counted_line};
ghost use Rattle.mea_text.specs.Reply.{reply_text};
ghost use Rattle.mea_family.specs.declared.answer.Answer.TheVariants.{Account};
ghost use Rattle.mea_crew_run.specs.Crew.{IsCommand, IsCrew, IsOfCrew, IsCrewFault, text_of, answers, status_of};
ghost use Rattle.mea_crew_run.specs.Rounds.{is_held, is_lacking};

use crate::answers::{is_held, is_lacking};
use crate::fault::CrewFault;
use crate::gate::Open;
use crate::sharing::crew;
use crate::status::CrewStatus;
use mea_base::NoMemory;
use mea_family::{Answer, Ledger};
use mea_io::{PutFault, Sink, write_text};
use mea_recorded::{Recorded, Refused};
use mea_text::{numbers_of_command, put_line, put_reply};
use std::alloc::Global;
use std::sync::Wait;
use std::thread::Threads;

/// The most workers of a crew, and the most rounds of each.
const MOST_WORKERS: u64 = 8;

const MOST_ROUNDS: u64 = 10_000;

/// All that the program does, with the words of its command line after its name. With `crew` and two numbers, of 1 to 8
/// workers and at most 10000 rounds, it plays a crew, and writes four lines that are read off its history: the
/// entries, the answers `some` and `none`, and the account of the semaphore. With any other words it writes
/// nothing. It takes memory in proportion to the entries.
pub fn run_crew<R: Threads + Wait + Sync, K: Sink>(
    rt: &R,
    alloc: Global,
    words: &[String],
    sink: &mut K,
) -> CrewStatus
    ensures usage { (result ≡ CrewStatus.Usage) ↔ (¬ IsCommand (map string_bytes words.now)) }
    ensures untouched { result ≡ CrewStatus.Usage → sink.new ≡ sink.old }
    ensures mismatch { result ≡ CrewStatus.Mismatch → sink.new ≡ sink.old }
    ensures refused { result ≡ CrewStatus.Refused → sink.new ≡ sink.old }
    ensures write_fault { result ≡ CrewStatus.WriteFault → Rose (K.faults sink.old) (K.faults sink.new) }

    // Where the sink tells its bytes: all four lines, or where there was a fault a front of them, or nothing.
    ensures done { (workers rounds : ℕ) (before : List ℕ) → IsCrew (map string_bytes words.now) workers rounds → K.taken sink.old ≡ Some before → result ≡ CrewStatus.Done
        → (h : History) × IsOfCrew workers rounds h × HasWritten (text_of h) before (K.taken sink.new) }
    ensures part { (workers rounds : ℕ) (before : List ℕ) → IsCrew (map string_bytes words.now) workers rounds → K.taken sink.old ≡ Some before
        → HasWritten [] before (K.taken sink.new) ⊎ ((h : History) × IsOfCrew workers rounds h × HasWrittenPart (text_of h) before (K.taken sink.new)) }
{
    match workers_and_rounds(words) {
        Some((workers, rounds)) => play(rt, alloc, workers, rounds, sink),
        None => CrewStatus::Usage,
    }
}

/// The two numbers of `crew`, where the words are those of it.
fn workers_and_rounds(words: &[String]) -> Option<(u32, u32)>
    ensures crew { (workers rounds : ℕ) → (result ≡ Some (workers, rounds)) ↔ IsCrew (map string_bytes words.now) workers rounds }
    ensures range { IfSome result (λ r. (1 ≤ r.0) × (r.0 ≤ 8) × (r.1 ≤ 10000)) }
{
    let (workers, rounds) = numbers_of_command(b"crew", words)?;
    if workers < 1 || workers > MOST_WORKERS || rounds > MOST_ROUNDS {
        return None;
    }
    Some((workers as u32, rounds as u32))
}

/// Plays a crew and writes its lines.
fn play<R: Threads + Wait + Sync, K: Sink>(
    rt: &R,
    alloc: Global,
    workers: u32,
    rounds: u32,
    sink: &mut K,
) -> CrewStatus
    requires workers { (1 ≤ workers) × (workers ≤ 8) }
    requires rounds { rounds ≤ 10000 }
    ensures usage { result ≢ CrewStatus.Usage }
    ensures mismatch { result ≡ CrewStatus.Mismatch → sink.new ≡ sink.old }
    ensures refused { result ≡ CrewStatus.Refused → sink.new ≡ sink.old }
    ensures write_fault { result ≡ CrewStatus.WriteFault → Rose (K.faults sink.old) (K.faults sink.new) }
    ensures done { (before : List ℕ) → K.taken sink.old ≡ Some before → result ≡ CrewStatus.Done
        → (h : History) × IsOfCrew workers rounds h × HasWritten (text_of h) before (K.taken sink.new) }
    ensures part { (before : List ℕ) → K.taken sink.old ≡ Some before
        → HasWritten [] before (K.taken sink.new) ⊎ ((h : History) × IsOfCrew workers rounds h × HasWrittenPart (text_of h) before (K.taken sink.new)) }
{
    let text = match lines_of(rt, alloc, workers, rounds) {
        Ok(text) => text,
        Err(fault) => return status_of(fault),
    };
    match write_text(sink, text.as_slice()) {
        Ok(()) => CrewStatus::Done,
        Err(PutFault::Failed) => CrewStatus::WriteFault,
        Err(PutFault::NoMemory) => CrewStatus::NoMemory,
    }
}

fn status_of(fault: CrewFault) -> CrewStatus
    ensures is { result ≡ status_of fault }
    ensures kind { (result ≢ CrewStatus.Usage) × (result ≢ CrewStatus.Done) × (result ≢ CrewStatus.WriteFault) }
{
    match fault {
        CrewFault::NoMemory => CrewStatus::NoMemory,
        CrewFault::Refused(_) => CrewStatus::Refused,
        CrewFault::Mismatch(_) => CrewStatus::Mismatch,
    }
}

/// The lines of a crew.
fn lines_of<R: Threads + Wait + Sync>(
    rt: &R,
    alloc: Global,
    workers: u32,
    rounds: u32,
) -> Result<Vec<u8>, CrewFault>
    requires workers { (1 ≤ workers) × (workers ≤ 8) }
    requires rounds { rounds ≤ 10000 }
    ensures text { IfOk result (λ text. (h : History) × IsOfCrew workers rounds h × (text.items ≡ text_of h)) }
    ensures fault { IfErr result (λ fault. IsCrewFault rounds fault) }
{
    let recorded = crew(rt, alloc, workers, rounds, &Open)?;
    lines_of_history(alloc, recorded)
}

fn lines_of_history(alloc: Global, recorded: Recorded) -> Result<Vec<u8>, CrewFault>
    ensures text { IfOk result (λ text. text.items ≡ text_of recorded) }
    ensures fault { IfErr result (λ fault. (rounds : ℕ) → IsCrewFault rounds fault) }
{
    let at = recorded.entries();
    let tally = tally_of(&recorded);
    match recorded.into_ledger(0) {
        Ok(ledger) => match put_lines(alloc, at, &tally, ledger) {
            Ok(text) => Ok(text),
            Err(NoMemory) => Err(CrewFault::NoMemory),
        },
        Err(stop) => Err(CrewFault::Refused(Refused { stop, at })),
    }
}

fn put_lines(alloc: Global, calls: u64, tally: &Tally, ledger: Ledger) -> Result<Vec<u8>, NoMemory>
    ensures { IfOk result (λ text. text.items ≡ counted_line (codes "calls") calls ++ counted_line (codes "some") tally.now.some ++ counted_line (codes "none") tally.now.none ++ reply_text (Account ledger) []) }
{
    let mut text = Vec::new(alloc);
    put_line(&mut text, b"calls", calls)?;
    put_line(&mut text, b"some", tally.some)?;
    put_line(&mut text, b"none", tally.none)?;
    put_reply(&mut text, &Answer::Account(ledger), &[])?;
    Ok(text)
}

/// How many entries have the answers `some` and `none`.
#[derive(Drop)]
struct Tally {
    some: u64,
    none: u64,
}

fn tally_of(recorded: &Recorded) -> Tally
    ensures some { result.some ≡ answers is_held recorded.now.replies }
    ensures none { result.none ≡ answers is_lacking recorded.now.replies }
{
    let mut tally = Tally { some: 0, none: 0 };
    for number in 0..recorded.entries() {
        let (_, answer) = recorded.entry_at(number);
        tally.some += u64::from(is_held(&answer));
        tally.none += u64::from(is_lacking(&answer));
    }
    tally
}
