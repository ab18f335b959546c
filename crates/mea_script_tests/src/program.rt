use mea_io::{Sink, Source};
use mea_script::Status;
use std::alloc::{AllocError, Global};

/// A program that plays scripts, by its top call.
pub trait Program {
    /// Does what the words ask for, from a source to a sink.
    fn run<S: Source, K: Sink>(
        alloc: Global,
        words: &[String],
        source: &mut S,
        sink: &mut K,
    ) -> Status;
}

/// The bytes of a script or of a text. A slash stands for a newline, and each ends with one.
pub fn bytes_of(alloc: Global, text: &str) -> Result<Vec<u8>, AllocError> {
    let mut bytes = Vec::from_slice(alloc, text.as_bytes())?;
    for byte in bytes.iter_mut() {
        if *byte == b'/' {
            *byte = b'\n';
        }
    }
    bytes.push(b'\n')?;
    Ok(bytes)
}

// The words of a command line.
fn words_of(alloc: Global, words: &[&str]) -> Result<Vec<String>, AllocError> {
    let mut owned = Vec::new(alloc);
    for word in words {
        owned.push(String::from_str(alloc, word)?)?;
    }
    Ok(owned)
}

/// Runs a program with these words. It has no clauses, so that no test carries what its program promises of a script.
pub fn ran<P: Program, S: Source, K: Sink>(
    alloc: Global,
    words: &[&str],
    source: &mut S,
    sink: &mut K,
) -> Result<Status, AllocError> {
    let words = words_of(alloc, words)?;
    Ok(P::run(alloc, words.as_slice(), source, sink))
}
