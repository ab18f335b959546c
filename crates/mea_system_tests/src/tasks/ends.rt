use crate::programs::Tasks;
use crate::rows::{Row, bytes_of, check, check_long, check_refused, read_fails, write_fails};
use mea_script::Status;

const WORDS: &[&str] = &["tasks"];

// Programs whose last line is none, and so is the line that the text names.
const BAD: &[(&str, u64)] = &[
    ("", 0),
    ("sem", 0),
    ("sem 01", 0),
    ("sem +1", 0),
    ("sem -1", 0),
    ("sem 18446744073709551616", 0),
    ("sem  1", 0),
    ("sem 1 ", 0),
    ("sem 1 2", 0),
    ("Sem 1", 0),
    ("new 1", 0),
    ("task 0", 0),
    // A step before the first task, and one that means a semaphore which no earlier line made.
    ("sem 1/yield", 1),
    ("sem 1/take 0 1", 1),
    ("task/take 0 1", 1),
    ("sem 1/task/give 1 1", 2),
    ("sem 1/task/take 0 1/take 1 1", 3),
    ("sem 1/task/yield 0", 2),
    ("sem 1/task/take 0", 2),
    ("sem 1/task/give 0 1 1", 2),
];

#[test]
fn bad_lines(rt: HostRuntime) {
    for (script, at) in BAD {
        let text = format!(in rt.alloc(); "bad {at}\n").expect(&rt, "memory");
        let bad = Status::BadLine { at: *at };
        check::<Tasks>(&rt, WORDS, bytes_of(&rt, script), text.as_bytes(), &bad);
    }
}

// No line at all.
#[test]
fn an_empty_script(rt: HostRuntime) {
    let text = bytes_of(&rt, "polls 0/done 0");
    let empty = Vec::new(rt.alloc());
    check::<Tasks>(&rt, WORDS, empty, text.as_slice(), &Status::Done);
}

// 16,777,219 bytes: the last of the lines is cut, and no task is run.
#[test]
fn a_script_is_too_long(rt: HostRuntime) {
    let mut script = bytes_of(&rt, "sem 0/task");
    for _ in 0..599_186u32 {
        script
            .extend_from_slice(b"give 0 18446744073709551615\n")
            .expect(&rt, "memory");
    }
    check_long::<Tasks>(&rt, WORDS, script, b"long 599187\n", &Status::TooLong);
}

const OTHERS: &[&[&str]] = &[&[], &["task"], &["tasks", "1"], &["play"]];

const ONE_TASK: Row = Row {
    words: WORDS,
    script: "task",
    text: "task 0 finished/polls 1/done 1",
    status: Status::Done,
};

#[test]
fn other_words_are_refused(rt: HostRuntime) {
    check_refused::<Tasks>(&rt, OTHERS, &ONE_TASK);
}

const TWO_TASKS: Row = Row {
    words: WORDS,
    script: "task/task",
    text: "task 0 finished/task 1 finished/polls 2/done 2",
    status: Status::Done,
};

// Nothing is told of a program that was not read to its end.
#[test]
fn a_read_fails(rt: HostRuntime) {
    assert!(rt; read_fails::<Tasks>(&rt, &TWO_TASKS) == 0);
}

// A front of the text is written.
#[test]
fn a_write_fails(rt: HostRuntime) {
    assert!(rt; write_fails::<Tasks>(&rt, &ONE_TASK) == 4);
}
