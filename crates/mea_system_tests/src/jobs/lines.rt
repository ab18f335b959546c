use crate::programs::Jobs;
use crate::rows::{Row, check_none, check_rows};
use mea_script::Status;

const WORDS: &[&str] = &["jobs", "1", "1", "1"];

// A first line that is no event line.
const BAD: &[&str] = &[
    "",
    "job",
    "job 1",
    "job 1 2 3",
    "job 01 1",
    "job +1 1",
    "job -1 1",
    "job 1 1 ",
    " job 1 1",
    "job  1 1",
    "job 1 18446744073709551616",
    "Job 1 1",
    "fin 1",
    "fin 1 2 3",
    "recall",
    "recall 1 2",
    "take 1",
    "back 1",
    "stop 1",
    "poll",
    "poll 1 2",
    "count 1",
    "jobs 1 1",
];

const GOOD: &[Row] = &[
    // The greatest number that is one.
    Row {
        words: &["jobs", "1", "1", "1"],
        script: "job 18446744073709551615 18446744073709551615/fin 0 18446744073709551615/take",
        text: "running/done/job 0 18446744073709551615/done 3",
        status: Status::Done,
    },
    // A line that is none ends the text, after the replies before it.
    Row {
        words: &["jobs", "1", "1", "1"],
        script: "job 1 1/fin 0 1//take",
        text: "running/done/bad 2",
        status: Status::BadLine { at: 2 },
    },
    // A job has the number of its line, over all lines.
    Row {
        words: &["jobs", "1", "1", "1"],
        script: "count/take/job 4 44/fin 2 5/take",
        text: "count 0 0 0 0 0/none/running/done/job 2 5/done 5",
        status: Status::Done,
    },
];

#[test]
fn lines_that_are_none(rt: HostRuntime) {
    check_none::<Jobs>(&rt, WORDS, BAD);
}

#[test]
fn lines_and_their_numbers(rt: HostRuntime) {
    check_rows::<Jobs>(&rt, GOOD);
}
