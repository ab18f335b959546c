use crate::rows::{Fails, bytes_of, played_until};
use mea_family::Stop;
use mea_run::Status;
use std::process::Abort;

const SCRIPT: &str = "new 1/try 0 1/free 0/lose 1/free 0/try 0 1/ledger 0";

const TEXT: &str = "made/some/free 0/forgot 1/free 0/none/ledger 1 0 0 0 0 0 1/done 7";

/// A script that comes and goes in pieces of so many bytes, where some call may fail; its text, how the run ends and with
/// which code, and how many bytes of the text were written then.
struct Row {
    script: &'static str,
    pieces: (usize, usize),
    fails: Fails,
    text: &'static str,
    status: Status,
    code: u8,
    written: usize,
}

const ROWS: &[Row] = &[
    // A read fails.
    Row {
        script: SCRIPT,
        pieces: (8, 64),
        fails: (Some(2), None),
        text: TEXT,
        status: Status::ReadFault,
        code: 4,
        written: 10,
    },
    // What was played before a read that fails is told.
    Row {
        script: "new 1/try 0 1/free 0",
        pieces: (8, 64),
        fails: (Some(2), None),
        text: "made/some",
        status: Status::ReadFault,
        code: 4,
        written: 10,
    },
    // A write fails.
    Row {
        script: SCRIPT,
        pieces: (64, 4),
        fails: (None, Some(1)),
        text: TEXT,
        status: Status::WriteFault,
        code: 5,
        written: 4,
    },
    // A call that is not made does not fail.
    Row {
        script: SCRIPT,
        pieces: (8, 4),
        fails: (Some(8), Some(21)),
        text: TEXT,
        status: Status::Done,
        code: 0,
        written: 66,
    },
    // Nothing is taken after the line that ends the text: the second call would fail, and is not made.
    Row {
        script: "new 1/end 0/free 0",
        pieces: (12, 64),
        fails: (Some(1), None),
        text: "made/stop 1 unknown",
        status: Status::Stopped {
            at: 1,
            cause: Stop::Unknown,
        },
        code: 1,
        written: 20,
    },
    // Each line spans pieces, and so does each number.
    Row {
        script: "new 18446744073709551614/release 0 1/release 0 1",
        pieces: (1, 1),
        fails: (None, None),
        text: "made/done/stop 2 overflow",
        status: Status::Stopped {
            at: 2,
            cause: Stop::Overflow,
        },
        code: 1,
        written: 26,
    },
];

fn check(rt: &(impl Abort + AllocGlobal), row: &Row) {
    let text = bytes_of(rt, row.text);
    let (status, written) = played_until(rt, &["play"], row.script, row.pieces, row.fails);
    assert!(rt; status == row.status);
    assert!(rt; status.code() == row.code);
    assert!(rt; text.starts_with(&written));
    assert!(rt; written.len() == row.written);
}

fn check_rows(rt: &(impl Abort + AllocGlobal), rows: &[Row]) {
    for row in rows {
        check(rt, row);
    }
}

#[test]
fn calls_fail(rt: HostRuntime) {
    check_rows(&rt, ROWS);
}
