use crate::programs::Pools;
use crate::rows::{Row, bytes_of, check, check_none, check_rows};
use mea_script::Status;

const WORDS: &[&str] = &["pool", "1"];

// A first line that is no event line.
const BAD: &[&str] = &[
    "",
    "poll",
    "poll 0",
    "poll 0 1 2",
    "poll 00 1",
    "poll +0 1",
    "poll -1 1",
    "poll 0 1 ",
    " poll 0 1",
    "poll  0 1",
    "poll 0 18446744073709551616",
    "Poll 0 1",
    "ask 1",
    "wait 1",
    "drain 1",
    "idle ",
    "use 1",
    "use 1 2 3",
    "back",
    "back 1 2",
    "end",
    "end 1 2",
    "lease 0 1",
    "pool 1",
];

const GOOD: &[Row] = &[
    // The greatest number that is one.
    Row {
        words: &["pool", "1"],
        script: "ask/poll 0 18446744073709551615/use 1 18446744073709551615/back 18446744073709551615/ask/poll 4 18446744073709551615/back 1",
        text: "made/lease 0 0/done/unknown/made/pending/done wake 18446744073709551615/done 7",
        status: Status::Done,
    },
    // A line that is none ends the text, after the replies before it.
    Row {
        words: &["pool", "1"],
        script: "ask/poll 0 1//back 1",
        text: "made/lease 0 0/bad 2",
        status: Status::BadLine { at: 2 },
    },
    // The largest pool.
    Row {
        words: &["pool", "1000000"],
        script: "idle/ask/poll 1 1/idle",
        text: "count 1000000/made/lease 0 0/count 999999/done 4",
        status: Status::Done,
    },
];

#[test]
fn lines_that_are_none(rt: HostRuntime) {
    check_none::<Pools>(&rt, WORDS, BAD);
}

#[test]
fn lines_and_their_numbers(rt: HostRuntime) {
    check_rows::<Pools>(&rt, GOOD);
}

#[test]
fn a_script_may_be_empty(rt: HostRuntime) {
    let text = bytes_of(&rt, "done 0");
    let empty = Vec::new(rt.alloc());
    check::<Pools>(&rt, WORDS, empty, text.as_slice(), &Status::Done);
}
