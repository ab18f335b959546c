ghost use Rattle.std.specs.Prelude.{◌≡◌, ◌≢◌, ◌↔◌, ◌+◌, ◌<◌, ◌≤◌, ◌^◌, ◌++◌, ℕ, List, [], Some, IfOk, IfErr, IfSome, map, length, codes, string_bytes};
ghost use Rattle.mea_io.specs.Bytes.{Rose, HasWritten, HasWrittenPart};
ghost use Rattle.mea_text.specs.Text.{counted_line};
ghost use Rattle.mea_named_run.specs.declared.counts.Counts.{Counts};
ghost use Rattle.mea_counted.specs.declared.missing.Missing.{Missing};
ghost use Rattle.mea_named_run.specs.Gathered.{IsGathered, IsFault, IsMissing};
ghost use Rattle.mea_named_run.specs.Program.{IsCommand, IsNamed, text_of, status_of};

use crate::counts::Counts;
use crate::fault::Fault;
use crate::gathering::gathered;
use crate::status::NamedStatus;
use mea_base::NoMemory;
use mea_io::{PutFault, Sink, write_text};
use mea_text::{numbers_of_command, put_line};
use std::alloc::Global;
use std::sync::Wait;
use std::thread::Threads;

/// The most workers, and the most rounds of each.
const MOST_WORKERS: u64 = 8;

const MOST_ROUNDS: u64 = 10_000;

/// All that the program does, with the words of its command line after its name. With `named` and two numbers, of 1 to 8
/// workers and at most 10000 rounds, workers share a semaphore of two permits, and three lines are written: the sizes of the
/// permits that the workers kept, together, and the permits that are held and free. With any other words it writes nothing.
pub fn run_named<R: Threads + Wait + Sync, K: Sink>(
    rt: &R,
    alloc: Global,
    words: &[String],
    sink: &mut K,
) -> NamedStatus
    ensures usage { (result ≡ NamedStatus.Usage) ↔ (¬ IsCommand (map string_bytes words.now)) }
    ensures untouched { result ≡ NamedStatus.Usage → sink.new ≡ sink.old }
    ensures write_fault { result ≡ NamedStatus.WriteFault → Rose (K.faults sink.old) (K.faults sink.new) }
    ensures missing { (m : Missing) → result ≡ NamedStatus.Missing m → IsMissing m }
    ensures unwritten { (m : Missing) → result ≡ NamedStatus.Missing m → sink.new ≡ sink.old }

    // Where the sink tells its bytes: all three lines, or with any other status a front of them, which may be nothing.
    ensures done { (workers rounds : ℕ) (before : List ℕ) → IsNamed (map string_bytes words.now) workers rounds → K.taken sink.old ≡ Some before → result ≡ NamedStatus.Done
        → (counts : Counts) × IsGathered workers counts × HasWritten (text_of counts) before (K.taken sink.new) }
    ensures part { (workers rounds : ℕ) (before : List ℕ) → IsNamed (map string_bytes words.now) workers rounds → K.taken sink.old ≡ Some before
        → (counts : Counts) × IsGathered workers counts × HasWrittenPart (text_of counts) before (K.taken sink.new) }
{
    match workers_and_rounds(words) {
        Some((workers, rounds)) => play(rt, alloc, workers, rounds, sink),
        None => NamedStatus::Usage,
    }
}

/// The two numbers of `named`, where the words are those of it.
fn workers_and_rounds(words: &[String]) -> Option<(u32, u32)>
    ensures named { (workers rounds : ℕ) → (result ≡ Some (workers, rounds)) ↔ IsNamed (map string_bytes words.now) workers rounds }
    ensures range { IfSome result (λ r. (1 ≤ r.0) × (r.0 ≤ 8) × (r.1 ≤ 10000)) }
{
    let (workers, rounds) = numbers_of_command(b"named", words)?;
    if workers < 1 || workers > MOST_WORKERS || rounds > MOST_ROUNDS {
        return None;
    }
    Some((workers as u32, rounds as u32))
}

/// Lets the workers work, and writes the lines.
fn play<R: Threads + Wait + Sync, K: Sink>(
    rt: &R,
    alloc: Global,
    workers: u32,
    rounds: u32,
    sink: &mut K,
) -> NamedStatus
    requires { workers ≤ 8 }
    ensures usage { result ≢ NamedStatus.Usage }
    ensures write_fault { result ≡ NamedStatus.WriteFault → Rose (K.faults sink.old) (K.faults sink.new) }
    ensures missing { (m : Missing) → result ≡ NamedStatus.Missing m → IsMissing m }
    ensures unwritten { (m : Missing) → result ≡ NamedStatus.Missing m → sink.new ≡ sink.old }
    ensures done { (before : List ℕ) → K.taken sink.old ≡ Some before → result ≡ NamedStatus.Done
        → (counts : Counts) × IsGathered workers counts × HasWritten (text_of counts) before (K.taken sink.new) }
    ensures part { (before : List ℕ) → K.taken sink.old ≡ Some before
        → (counts : Counts) × IsGathered workers counts × HasWrittenPart (text_of counts) before (K.taken sink.new) }
{
    let text = match lines_of(rt, alloc, workers, rounds) {
        Ok(text) => text,
        Err(fault) => return status_of(fault),
    };
    match write_text(sink, text.as_slice()) {
        Ok(()) => NamedStatus::Done,
        Err(PutFault::Failed) => NamedStatus::WriteFault,
        Err(PutFault::NoMemory) => NamedStatus::NoMemory,
    }
}

fn status_of(fault: Fault) -> NamedStatus
    requires { IsFault fault }
    ensures is { result ≡ status_of fault }
    ensures kind { (result ≢ NamedStatus.Usage) × (result ≢ NamedStatus.Done) × (result ≢ NamedStatus.WriteFault) }
    ensures missing { (m : Missing) → result ≡ NamedStatus.Missing m → IsMissing m }
{
    match fault {
        Fault::NoMemory => NamedStatus::NoMemory,
        Fault::Missing(missing) => NamedStatus::Missing(missing),
    }
}

/// The three lines.
fn lines_of<R: Threads + Wait + Sync>(
    rt: &R,
    alloc: Global,
    workers: u32,
    rounds: u32,
) -> Result<Vec<u8>, Fault>
    requires { workers ≤ 8 }
    ensures text { IfOk result (λ text. (counts : Counts) × IsGathered workers counts × (text.items ≡ text_of counts)) }
    ensures fault { IfErr result (λ fault. IsFault fault) }
{
    let counts = gathered(rt, alloc, workers, rounds)?;
    match put_lines(alloc, &counts) {
        Ok(text) => Ok(text),
        Err(NoMemory) => Err(Fault::NoMemory),
    }
}

fn put_lines(alloc: Global, counts: &Counts) -> Result<Vec<u8>, NoMemory>
    ensures { IfOk result (λ text. text.items ≡ text_of counts.now) }
{
    let mut text = Vec::new(alloc);
    put_line(&mut text, b"kept", counts.kept)?;
    put_line(&mut text, b"held", counts.held)?;
    put_line(&mut text, b"free", counts.free)?;
    Ok(text)
}
