use mea_run::{MemSink, MemSource, Sink, Source, Status, SureSink, SureSource, run};
use mea_script_tests as scripts;
use mea_script_tests::Program;
use std::alloc::Global;
use std::process::Abort;

/// A script with its text and its status. A slash stands for a newline, and each ends with one.
pub(crate) struct Row {
    pub script: &'static str,
    pub text: &'static str,
    pub status: Status,
}

// The program.
struct Play;

impl Program for Play {
    fn run<S: Source, K: Sink>(
        alloc: Global,
        words: &[String],
        source: &mut S,
        sink: &mut K,
    ) -> Status {
        run(alloc, words, source, sink)
    }
}

/// The bytes of a script or of a text.
pub(crate) fn bytes_of(rt: &(impl Abort + AllocGlobal), text: &str) -> Vec<u8> {
    scripts::bytes_of(rt.alloc(), text).expect(rt, "memory")
}

/// Runs the words. It has no clauses, so that no test carries what `run` promises of a script.
pub(crate) fn ran<S: Source, K: Sink>(
    rt: &(impl Abort + AllocGlobal),
    words: &[&str],
    source: &mut S,
    sink: &mut K,
) -> Status {
    scripts::ran::<Play, S, K>(rt.alloc(), words, source, sink).expect(rt, "memory")
}

/// Plays a script that comes and goes in pieces of so many bytes: how that ends, and what is written.
pub(crate) fn played(
    rt: &(impl Abort + AllocGlobal),
    script: Vec<u8>,
    pieces: (usize, usize),
) -> (Status, Vec<u8>) {
    let mut source = SureSource::new(script, pieces.0.max(1));
    let mut sink = SureSink::new(rt.alloc(), pieces.1.max(1));
    let status = ran(rt, &["play"], &mut source, &mut sink);
    (status, copied(rt, sink.bytes()))
}

/// The number of a read that fails, and that of a write that does.
pub(crate) type Fails = (Option<u64>, Option<u64>);

/// The same with these words, where some call may fail.
pub(crate) fn played_until(
    rt: &(impl Abort + AllocGlobal),
    words: &[&str],
    script: &str,
    pieces: (usize, usize),
    fails: Fails,
) -> (Status, Vec<u8>) {
    let script = bytes_of(rt, script);
    let mut source = MemSource::new(script, pieces.0.max(1), calls(rt, fails.0));
    let mut sink = MemSink::new(rt.alloc(), pieces.1.max(1), calls(rt, fails.1));
    let status = ran(rt, words, &mut source, &mut sink);
    (status, copied(rt, sink.bytes()))
}

// The calls that fail: this one, or none.
fn calls(rt: &(impl Abort + AllocGlobal), call: Option<u64>) -> Vec<u64> {
    let mut calls = Vec::new(rt.alloc());
    if let Some(call) = call {
        calls.push(call).expect(rt, "memory");
    }
    calls
}

fn copied(rt: &(impl Abort + AllocGlobal), bytes: &[u8]) -> Vec<u8> {
    Vec::from_slice(rt.alloc(), bytes).expect(rt, "memory")
}

/// Plays a script, a few bytes at a time, and compares its text and how it ends.
pub(crate) fn check(rt: &(impl Abort + AllocGlobal), script: &str, text: &str, status: &Status) {
    let text = bytes_of(rt, text);
    let (told, written) = played(rt, bytes_of(rt, script), (5, 3));
    assert_eq!(rt; written.as_slice(), text.as_slice(), "{script}");
    assert!(rt; told == *status, "{script}");
}

/// Plays each script. A test hands its table over, and goes through none of its rows itself.
pub(crate) fn check_rows(rt: &(impl Abort + AllocGlobal), rows: &[Row]) {
    for row in rows {
        check(rt, row.script, row.text, &row.status);
    }
}
