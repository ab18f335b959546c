use crate::{Program, bytes_of, ran, run_doors};
use mea_io::{Sink, Source, SureSink, SureSource};
use mea_script::Status;
use std::alloc::Global;
use std::process::Abort;

/// The program of doors.
pub(crate) struct DoorProgram;

impl Program for DoorProgram {
    fn run<S: Source, K: Sink>(
        alloc: Global,
        words: &[String],
        source: &mut S,
        sink: &mut K,
    ) -> Status {
        run_doors(alloc, words, source, sink)
    }
}

// Plays a script of doors, a few bytes at a time, and compares its text.
fn check(rt: &(impl Abort + AllocGlobal), script: &str, text: &str, status: Status) {
    let script = bytes_of(rt.alloc(), script).expect(rt, "memory");
    let text = bytes_of(rt.alloc(), text).expect(rt, "memory");
    let mut source = SureSource::new(script, 3);
    let mut sink = SureSink::new(rt.alloc(), 5);
    let told = ran::<DoorProgram, _, _>(rt.alloc(), &["doors"], &mut source, &mut sink);
    assert!(rt; told.expect(rt, "memory") == status);
    assert!(rt; sink.bytes() == text.as_slice());
}

#[test]
fn doors_are_counted(rt: HostRuntime) {
    check(
        &rt,
        "open/open/shut/open",
        "open 1/open 2/open 1/open 2/left 2/done 4",
        Status::Done,
    );
}

#[test]
fn no_door_is_shut_twice(rt: HostRuntime) {
    check(
        &rt,
        "open/shut/shut/open",
        "open 1/open 0/bad 2",
        Status::BadLine { at: 2 },
    );
}
