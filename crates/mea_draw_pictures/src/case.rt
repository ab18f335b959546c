use crate::kept::Kept;
use crate::reply::put_reply;
use mea_io::{PutFault, Sink, SureSink, SureSource, write_text};
use mea_picture::draw_script;
use mea_text::put_text;
use std::alloc::Global;

/// Draws each case.
pub fn draw_cases<K: Sink>(alloc: Global, cases: &[u8], sink: &mut K) -> Result<(), PutFault> {
    for case in cases.split(|byte| *byte == b'#') {
        if !case.is_empty() {
            draw_case(alloc, case, sink)?;
        }
    }
    Ok(())
}

// Draws a case: its name, and its lines.
fn draw_case<K: Sink>(alloc: Global, case: &[u8], sink: &mut K) -> Result<(), PutFault> {
    let mut script = Vec::new(alloc);
    let mut kept = Kept::new(alloc);
    let mut lines = case.split(|byte| *byte == b'\n');
    let name = lines.next().unwrap_or(b"");
    for line in lines {
        put_line(alloc, &mut script, &mut kept, line)?;
    }
    let mut source = SureSource::new(script, 7);
    let mut picture = SureSink::new(alloc, 4096);
    draw_script(alloc, kept, &mut source, &mut picture);
    write_text(sink, name)?;
    write_text(sink, b"\n")?;
    if name.starts_with(b"picture") {
        return write_text(sink, picture.bytes());
    }
    write_marks(picture.bytes(), sink)
}

// Puts a line of a case: that of the script, its reply, and the free permits.
fn put_line(
    alloc: Global,
    script: &mut Vec<u8>,
    kept: &mut Kept,
    line: &[u8],
) -> Result<(), PutFault> {
    if line.is_empty() {
        return Ok(());
    }
    let mut parts = line.split(|byte| *byte == b'\t');
    put(script, parts.next().unwrap_or(b""))?;
    put(script, b"\n")?;
    match put_reply(alloc, kept, parts.next().unwrap_or(b""), parts.next()) {
        Ok(()) => Ok(()),
        Err(_) => Err(PutFault::NoMemory),
    }
}

fn put(text: &mut Vec<u8>, words: &[u8]) -> Result<(), PutFault> {
    match put_text(text, words) {
        Ok(()) => Ok(()),
        Err(_) => Err(PutFault::NoMemory),
    }
}

// Writes what the marks of a picture say, each on a line.
fn write_marks<K: Sink>(picture: &[u8], sink: &mut K) -> Result<(), PutFault> {
    for line in picture.split(|byte| *byte == b'\n') {
        if let Some(rest) = line.strip_prefix(b"<g data-mark=\"") {
            write_text(sink, rest.split(|byte| *byte == b'"').next().unwrap_or(b""))?;
            write_text(sink, b"\n")?;
        }
    }
    Ok(())
}
