ghost use Rattle.std.specs.Prelude.{◌≤◌};

use crate::words::owned;
use mea_crew_run::{CrewStatus, Gate, Open, crew, run_crew};
use mea_events::SemEvent;
use mea_family::Stop;
use mea_io::MemSink;
use mea_recorded::{Recorded, Refused};
use std::process::Abort;
use std::sync::Wait;
use std::sync::atomic::{AtomicU64, Ordering};
use std::thread;
use std::thread::Threads;

// Two workers of two rounds: the first one's first round waits for the second one's last, and that one's last for the
// first one's last. So the two run beside each other.
#[derive(Drop)]
struct Crossing {
    calls: [AtomicU64; 4],
    late: AtomicU64,
}

impl Crossing {
    fn wait_for(&self, place: usize) {
        for _ in 0..10_000_000u32 {
            if place < 4 && self.calls[place].load(Ordering::SeqCst) != 0 {
                return;
            }
            thread::yield_now();
        }
        self.late.fetch_add(1, Ordering::SeqCst);
    }
}

impl Gate for Crossing {
    fn before(&self, worker: usize, round: u32) {
        if worker < 2 && round < 2 {
            let place = worker * 2 + round as usize;
            self.calls[place].fetch_add(1, Ordering::SeqCst);
            if place == 0 {
                self.wait_for(3);
            }
            if place == 3 {
                self.wait_for(1);
            }
        }
    }
}

// How many entries a crew records. It has no clauses but those of its arguments, so that no test carries what `crew` promises.
fn entries<R: Threads + Wait + Sync + AllocGlobal + Abort, G: Gate>(
    rt: &R,
    workers: u32,
    rounds: u32,
    gate: &G,
) -> u64
    requires workers { (1 ≤ workers) × (workers ≤ 8) }
    requires rounds { rounds ≤ 10000 }
{
    let recorded = crew(rt, rt.alloc(), workers, rounds, gate);
    recorded.expect(rt, "a crew").entries()
}

#[test]
fn gate_two_workers(rt: HostRuntime) {
    let gate = Crossing {
        calls: [
            AtomicU64::new(0),
            AtomicU64::new(0),
            AtomicU64::new(0),
            AtomicU64::new(0),
        ],
        late: AtomicU64::new(0),
    };
    assert_eq!(rt; entries(&rt, 2, 2, &gate), 9);
    assert_eq!(rt; gate.late.load(Ordering::SeqCst), 0);
}

#[test]
fn eight_workers(rt: HostRuntime) {
    let entries = entries(&rt, 8, 1000, &Open);
    assert!(rt; entries > 8000 && entries <= 16_001);
}

// What an event is told: its number, or why and where it is refused. It has no clauses, nor has `entry` below.
fn told(recorded: &mut Recorded, event: SemEvent) -> Result<u64, (Stop, u64)> {
    match recorded.act_on(&event) {
        Ok(receipt) => Ok(receipt.number),
        Err(Refused { stop, at }) => Err((stop, at)),
    }
}

fn entry(recorded: &Recorded, number: u64) -> Option<SemEvent> {
    recorded.entry(number).copied()
}

// An event that is refused leaves the history; the end of what lives is recorded.
#[test]
fn a_refused_event_is_not_recorded(rt: HostRuntime) {
    let mut recorded = Recorded::new(rt.alloc(), 2).expect(&rt, "memory");
    is_not_recorded(&rt, &mut recorded);
}

fn is_not_recorded(rt: &impl Abort, recorded: &mut Recorded) {
    assert!(rt; told(recorded, SemEvent::End(99)) == Err((Stop::Unknown, 1)));
    assert_eq!(rt; recorded.entries(), 1);
    assert!(rt; told(recorded, SemEvent::Try(0, 1)) == Ok(1));
    assert!(rt; told(recorded, SemEvent::End(1)) == Ok(2));
    assert!(rt; entry(recorded, 2) == Some(SemEvent::End(1)));
}

// Runs the program with these words. It has no clauses, so that no test carries what `run_crew` promises.
fn ran<R: Wait + Threads + Sync + AllocGlobal + Abort>(
    rt: &R,
    words: &[&str],
    sink: &mut MemSink,
) -> CrewStatus {
    let words = owned(rt, words);
    run_crew(rt, rt.alloc(), words.as_slice(), sink)
}

#[test]
fn the_program_writes_four_lines(rt: HostRuntime) {
    let mut sink = MemSink::new(rt.alloc(), 64, Vec::new(rt.alloc()));
    assert_eq!(rt; ran(&rt, &["crew", "2", "3"], &mut sink), CrewStatus::Done);
    assert_eq!(rt;
        sink.bytes(),
        b"calls 13\nsome 6\nnone 0\nledger 2 0 0 2 0 0 0\n".as_slice()
    );
}

// A crew has one worker to eight.
#[test]
fn other_words_are_refused(rt: HostRuntime) {
    let mut sink = MemSink::new(rt.alloc(), 64, Vec::new(rt.alloc()));
    for workers in ["0", "9"] {
        assert_eq!(rt;
            ran(&rt, &["crew", workers, "3"], &mut sink),
            CrewStatus::Usage
        );
    }
    assert_eq!(rt; sink.bytes().len(), 0);
}
