use crate::rows::{bytes_of, ran};
use mea_run::{Status, SureSink, SureSource};
use std::process::Abort;

/// The words are refused, and nothing is read or written: the same source and sink then play the script.
fn check_refused(rt: &(impl Abort + AllocGlobal), words: &[&str]) {
    let text = bytes_of(rt, "made/done 1");
    let mut source = SureSource::new(bytes_of(rt, "new 1"), 64);
    let mut sink = SureSink::new(rt.alloc(), 64);
    assert!(rt; ran(rt, words, &mut source, &mut sink) == Status::Usage);
    assert!(rt; sink.bytes().is_empty());
    assert!(rt; ran(rt, &["play"], &mut source, &mut sink) == Status::Done);
    assert_eq!(rt; sink.bytes(), text.as_slice());
}

const OTHER_WORDS: &[&[&str]] = &[
    &[],
    &["play", "x"],
    &["make", "1"],
    &["make", "1", "300001"],
    &["make", "01", "1"],
    &["--help"],
];

#[test]
fn other_words_are_refused(rt: HostRuntime) {
    for words in OTHER_WORDS {
        check_refused(&rt, words);
    }
}
