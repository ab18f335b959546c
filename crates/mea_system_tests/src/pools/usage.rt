use crate::programs::Pools;
use crate::rows::{Row, check_refused};
use mea_script::Status;

const OTHERS: &[&[&str]] = &[
    &[],
    &["pool"],
    &["pool", "1", "1"],
    &["play", "1"],
    &["Pool", "1"],
    &["1", "pool"],
    &["pool", ""],
    &["pool", "0"],
    &["pool", "01"],
    &["pool", "+1"],
    &["pool", "1 "],
    &["pool", "1000001"],
    &["pool", "18446744073709551617"],
    &["--help"],
];

const PLAYED: Row = Row {
    words: &["pool", "1"],
    script: "idle",
    text: "count 1/done 1",
    status: Status::Done,
};

#[test]
fn other_words_are_refused(rt: HostRuntime) {
    check_refused::<Pools>(&rt, OTHERS, &PLAYED);
}
