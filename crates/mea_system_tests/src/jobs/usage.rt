use crate::programs::Jobs;
use crate::rows::{Row, check_refused};
use mea_script::Status;

const OTHERS: &[&[&str]] = &[
    &[],
    &["jobs"],
    &["jobs", "1"],
    &["jobs", "1", "1"],
    &["jobs", "1", "1", "1", "1"],
    &["play", "1", "1", "1"],
    &["jobs", "0", "1", "1"],
    &["jobs", "1", "0", "1"],
    &["jobs", "1", "1", "0"],
    &["jobs", "1000001", "1", "1"],
    &["jobs", "1", "1000001", "1"],
    &["jobs", "1", "1", "1000001"],
    &["jobs", "01", "1", "1"],
    &["jobs", "1", "1", "18446744073709551616"],
    &["--help"],
];

const PLAYED: Row = Row {
    words: &["jobs", "1000000", "1000000", "1"],
    script: "job 1 1",
    text: "running/done 1",
    status: Status::Done,
};

#[test]
fn other_words_are_refused(rt: HostRuntime) {
    check_refused::<Jobs>(&rt, OTHERS, &PLAYED);
}
