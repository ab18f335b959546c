use crate::words::owned;
use mea_io::MemSink;
use mea_named_run::{NamedStatus, run_named};
use std::process::Abort;
use std::sync::Wait;
use std::thread::Threads;

// Runs the program with these words. It has no clauses, so that no test carries what `run_named` promises.
fn ran<R: Wait + Threads + Sync + AllocGlobal + Abort>(
    rt: &R,
    words: &[&str],
    sink: &mut MemSink,
) -> NamedStatus {
    let words = owned(rt, words);
    run_named(rt, rt.alloc(), words.as_slice(), sink)
}

// A run: its words, how it ends and with which code, and what it writes.
struct Row {
    words: [&'static str; 3],
    status: NamedStatus,
    code: u8,
    text: &'static [u8],
}

const ROWS: &[Row] = &[
    // One worker: it keeps the permit of its last round.
    Row {
        words: ["named", "1", "3"],
        status: NamedStatus::Done,
        code: 0,
        text: b"kept 1\nheld 1\nfree 1\n",
    },
    // Two workers: both permits are kept.
    Row {
        words: ["named", "2", "2"],
        status: NamedStatus::Done,
        code: 0,
        text: b"kept 2\nheld 2\nfree 0\n",
    },
    // With no rounds nothing is kept.
    Row {
        words: ["named", "8", "0"],
        status: NamedStatus::Done,
        code: 0,
        text: b"kept 0\nheld 0\nfree 2\n",
    },
    // Other words write nothing.
    Row {
        words: ["named", "9", "3"],
        status: NamedStatus::Usage,
        code: 7,
        text: b"",
    },
];

#[test]
fn what_the_program_writes(rt: HostRuntime) {
    for row in ROWS {
        let mut sink = MemSink::new(rt.alloc(), 64, Vec::new(rt.alloc()));
        let status = ran(&rt, &row.words, &mut sink);
        assert_eq!(rt; status, row.status);
        assert_eq!(rt; status.code(), row.code);
        assert_eq!(rt; sink.bytes(), row.text);
    }
}

// A write that fails leaves a front of the text.
#[test]
fn a_write_that_fails(rt: HostRuntime) {
    let fails = vec![in rt.alloc(); 1u64].expect(&rt, "memory");
    let mut sink = MemSink::new(rt.alloc(), 5, fails);
    let status = ran(&rt, &["named", "1", "1"], &mut sink);
    assert_eq!(rt; status, NamedStatus::WriteFault);
    assert_eq!(rt; status.code(), 5);
    assert_eq!(rt; sink.bytes(), b"kept ".as_slice());
}
