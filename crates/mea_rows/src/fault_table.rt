use crate::rows::{Fails, bytes_of, played_until};
use mea_run::Status;
use std::process::Abort;

/// A run of the program without a fault, with how often it reads and writes where a call moves 32 bytes at most.
struct Row {
    words: &'static [&'static str],
    script: &'static str,
    text: &'static str,
    reads: u64,
    writes: u64,
}

const PIECE: usize = 32;

const ROWS: &[Row] = &[
    // A pool of three connections and eight clients.
    Row {
        words: &["play"],
        script: "new 3/acq 0 1/poll 1 101/acq 0 1/poll 3 102/acq 0 1/poll 5 103/acq 0 1/poll 7 104/acq 0 1/poll 9 105/acq 0 1/poll 11 106/acq 0 1/poll 13 107/acq 0 1/poll 15 108/free 0/end 9/end 2/poll 7 104/end 4/poll 11 106/free 0/end 6/poll 13 107/end 20/poll 15 108/try 0 1/end 22/free 0/end 25/end 27/free 0/try 0 3/split 34 1/size 34/merge 34 35/end 34/ledger 0",
        text: "made/made/ready/made/ready/made/ready/made/pending/made/pending/made/pending/made/pending/made/pending/free 0/done/done wake 104/ready/done wake 106/ready/free 0/done wake 107/ready/done wake 108/ready/none/done/free 1/done/done/free 3/some/some/permits 2/done/done/ledger 3 0 0 3 0 0 0/done 40",
        reads: 12,
        writes: 15,
    },
    // A key that is taken out while it is computed.
    Row {
        words: &["play"],
        script: "om.new/om.compute 0 5/om.poll 1 30/om.compute 0 5/om.poll 3 31/om.remove 0 5/om.settle 1 77/om.poll 1 32/om.poll 3 33/om.get 0 5",
        text: "made/made/pending/made/pending/none/done wake 30/value 77 wake 31/value 77/none/done 10",
        reads: 6,
        writes: 6,
    },
    // A generated script reads nothing.
    Row {
        words: &["make", "1", "3"],
        script: "new 1",
        text: "events 29/pending 6/wakes 4/ledger 0 13 0 0 0 0 13",
        reads: 0,
        writes: 2,
    },
];

// How a run ends in which this call fails, of so many that are made: with the fault where the call is made.
fn status_of(call: u64, calls: u64, fault: Status) -> Status {
    if call < calls { fault } else { Status::Done }
}

// Plays a row, with this read or this write failing, and compares the status and what was written.
fn check(rt: &(impl Abort + AllocGlobal), row: &Row, fails: Fails, status: Status) {
    let text = bytes_of(rt, row.text);
    let (told, written) = played_until(rt, row.words, row.script, (PIECE, PIECE), fails);
    assert!(rt; told == status);
    assert!(rt; text.starts_with(&written));
    let is_whole = written.len() == text.len();
    assert!(rt; is_whole == (status == Status::Done));
}

// Plays a row with the read of this number failing, and with the write of this number failing.
fn check_call(rt: &(impl Abort + AllocGlobal), row: &Row, call: u64) {
    let status = status_of(call, row.reads, Status::ReadFault);
    check(rt, row, (Some(call), None), status);
    let status = status_of(call, row.writes, Status::WriteFault);
    check(rt, row, (None, Some(call)), status);
}

// Plays a row with each of the first 32 reads failing once, and with each of the first 32 writes.
fn check_calls(rt: &(impl Abort + AllocGlobal), row: &Row) {
    for call in 0..32u64 {
        check_call(rt, row, call);
    }
}

// Each of the first 32 reads and of the first 32 writes fails once. A read that fails is never told as the end of the
// input, and what was written is a front of the text.
#[test]
fn fault_table(rt: HostRuntime) {
    for row in ROWS {
        check_calls(&rt, row);
    }
}
