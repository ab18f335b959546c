use mea_io::{MemSink, MemSource, Sink, Source, SureSink, SureSource};
use mea_script::Status;
use mea_script_tests as scripts;
use mea_script_tests::Program;
use std::process::Abort;

/// A script with the words of its program, its text and its status. A slash stands for a newline, and each ends with one.
pub(crate) struct Row {
    pub words: &'static [&'static str],
    pub script: &'static str,
    pub text: &'static str,
    pub status: Status,
}

/// The bytes of a script or of a text.
pub(crate) fn bytes_of(rt: &(impl Abort + AllocGlobal), text: &str) -> Vec<u8> {
    scripts::bytes_of(rt.alloc(), text).expect(rt, "memory")
}

fn ran<P: Program, S: Source, K: Sink>(
    rt: &(impl Abort + AllocGlobal),
    words: &[&str],
    source: &mut S,
    sink: &mut K,
) -> Status {
    scripts::ran::<P, S, K>(rt.alloc(), words, source, sink).expect(rt, "memory")
}

/// Plays each script, a few bytes at a time.
pub(crate) fn check_rows<P: Program>(rt: &(impl Abort + AllocGlobal), rows: &[Row]) {
    for row in rows {
        let text = bytes_of(rt, row.text);
        let script = bytes_of(rt, row.script);
        check::<P>(rt, row.words, script, text.as_slice(), &row.status);
    }
}

/// Plays one script, a few bytes at a time.
pub(crate) fn check<P: Program>(
    rt: &(impl Abort + AllocGlobal),
    words: &[&str],
    script: Vec<u8>,
    text: &[u8],
    status: &Status,
) {
    let mut source = SureSource::new(script, 5);
    let mut sink = SureSink::new(rt.alloc(), 3);
    let told = ran::<P, SureSource, SureSink>(rt, words, &mut source, &mut sink);
    assert_eq!(rt; sink.bytes(), text);
    assert!(rt; told == *status);
}

/// Plays a long script at once.
pub(crate) fn check_long<P: Program>(
    rt: &(impl Abort + AllocGlobal),
    words: &[&str],
    script: Vec<u8>,
    text: &[u8],
    status: &Status,
) {
    let mut source = SureSource::new(script, usize::MAX);
    let mut sink = SureSink::new(rt.alloc(), usize::MAX);
    let told = ran::<P, SureSource, SureSink>(rt, words, &mut source, &mut sink);
    assert!(rt; sink.bytes() == text);
    assert!(rt; told == *status);
}

/// None of these lines is one: a script of it alone is bad at once.
pub(crate) fn check_none<P: Program>(
    rt: &(impl Abort + AllocGlobal),
    words: &[&str],
    lines: &[&str],
) {
    for line in lines {
        let text = bytes_of(rt, "bad 0");
        let bad = Status::BadLine { at: 0 };
        check::<P>(rt, words, bytes_of(rt, line), text.as_slice(), &bad);
    }
}

/// Each of these words is refused, and nothing is read or written: the same source and sink then play the row.
pub(crate) fn check_refused<P: Program>(
    rt: &(impl Abort + AllocGlobal),
    others: &[&[&str]],
    row: &Row,
) {
    for words in others {
        check_refusal::<P>(rt, words, row);
    }
}

fn check_refusal<P: Program>(rt: &(impl Abort + AllocGlobal), words: &[&str], row: &Row) {
    let text = bytes_of(rt, row.text);
    let mut source = SureSource::new(bytes_of(rt, row.script), 64);
    let mut sink = SureSink::new(rt.alloc(), 64);
    let refused = ran::<P, SureSource, SureSink>(rt, words, &mut source, &mut sink);
    assert!(rt; refused == Status::Usage);
    assert!(rt; sink.bytes().is_empty());
    let played = ran::<P, SureSource, SureSink>(rt, row.words, &mut source, &mut sink);
    assert!(rt; played == row.status);
    assert_eq!(rt; sink.bytes(), text.as_slice());
}

/// The third read of a script fails, of eight bytes each: how much was written then, which is a front of the text.
pub(crate) fn read_fails<P: Program>(rt: &(impl Abort + AllocGlobal), row: &Row) -> usize {
    let text = bytes_of(rt, row.text);
    let fails = vec![in rt.alloc(); 2u64].expect(rt, "memory");
    let mut source = MemSource::new(bytes_of(rt, row.script), 8, fails);
    let mut sink = MemSink::new(rt.alloc(), 64, Vec::new(rt.alloc()));
    let told = ran::<P, MemSource, MemSink>(rt, row.words, &mut source, &mut sink);
    assert!(rt; told == Status::ReadFault);
    assert!(rt; text.starts_with(sink.bytes()));
    sink.bytes().len()
}

/// The second write of a text fails, of four bytes each: how much was written, which is a front of the text.
pub(crate) fn write_fails<P: Program>(rt: &(impl Abort + AllocGlobal), row: &Row) -> usize {
    let text = bytes_of(rt, row.text);
    let fails = vec![in rt.alloc(); 1u64].expect(rt, "memory");
    let mut source = MemSource::new(bytes_of(rt, row.script), 64, Vec::new(rt.alloc()));
    let mut sink = MemSink::new(rt.alloc(), 4, fails);
    let told = ran::<P, MemSource, MemSink>(rt, row.words, &mut source, &mut sink);
    assert!(rt; told == Status::WriteFault);
    assert!(rt; text.starts_with(sink.bytes()));
    sink.bytes().len()
}
