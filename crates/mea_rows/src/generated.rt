use crate::rows::{bytes_of, ran};
use mea_events::{Event, SemEvent};
use mea_run::{Status, SureSink, SureSource, make_script};
use std::process::Abort;

// A seed, a number of rounds, and the summary of the script that is made of them.
const SUMMARIES: &[(&str, &str, &str)] = &[
    ("1", "0", "events 2/pending 0/wakes 0/ledger 0 0 0 0 0 0 0"),
    ("1", "1", "events 11/pending 2/wakes 2/ledger 0 3 0 0 0 0 3"),
    (
        "1",
        "3",
        "events 29/pending 6/wakes 4/ledger 0 13 0 0 0 0 13",
    ),
    // The longest, twice.
    (
        "7",
        "300000",
        "events 2700002/pending 600000/wakes 319459/ledger 0 1049213 1 0 0 0 1049214",
    ),
    (
        "7",
        "300000",
        "events 2700002/pending 600000/wakes 319459/ledger 0 1049213 1 0 0 0 1049214",
    ),
];

/// Makes a script and compares its summary. Nothing is read of the source.
fn check_summary(rt: &(impl Abort + AllocGlobal), seed: &str, rounds: &str, text: &str) {
    let text = bytes_of(rt, text);
    let mut source = SureSource::new(bytes_of(rt, "new 1"), 64);
    let mut sink = SureSink::new(rt.alloc(), 7);
    assert!(rt; ran(rt, &["make", seed, rounds], &mut source, &mut sink) == Status::Done);
    assert_eq!(rt; sink.bytes(), text.as_slice());
}

fn check_summaries(rt: &(impl Abort + AllocGlobal), summaries: &[(&str, &str, &str)]) {
    for (seed, rounds, text) in summaries {
        check_summary(rt, seed, rounds, text);
    }
}

#[test]
fn generated_scripts_are_summarized(rt: HostRuntime) {
    check_summaries(&rt, SUMMARIES);
}

const EVENTS: &[Event] = &[
    Event::Sem(SemEvent::New(0)),
    Event::Sem(SemEvent::Acq(0, 1)),
    Event::Sem(SemEvent::Poll(1, 0)),
    Event::Sem(SemEvent::Acqo(0, 3)),
    Event::Sem(SemEvent::Poll(3, 1)),
    Event::Sem(SemEvent::Forgetx(0, 2)),
    Event::Sem(SemEvent::Release(0, 2)),
    Event::Sem(SemEvent::End(1)),
    Event::Sem(SemEvent::End(3)),
    Event::Sem(SemEvent::Forget(0, u64::MAX)),
    Event::Sem(SemEvent::Ledger(0)),
];

// A script made from a number. It has no clauses, so that the test carries nothing of what `make_script` promises.
fn made(rt: &(impl Abort + AllocGlobal), seed: u64, rounds: u32) -> Vec<Event> {
    make_script(rt.alloc(), seed, rounds).expect(rt, "memory")
}

#[test]
fn a_script_is_made(rt: HostRuntime) {
    let script = made(&rt, 7, 1);
    assert!(rt; script.as_slice() == EVENTS);
}
