ghost use Rattle.std.specs.Prelude.{◌≡◌, ◌≢◌, ◌<◌, ◌≤◌, length, OnOk, OnErr, IfOk};
ghost use Rattle.mea_io.specs.Bytes.{Rose};
ghost use Rattle.mea_io.specs.Memory.{one_more};

use crate::sink::{PutFault, Sink};
use crate::source::{Failed, Source};
use std::io::{Read, Write};

/// Standard input, or another reader. It tells no contents. Each error counts as a failed read, also where
/// the reader says that it was interrupted.
#[derive(Drop)]
pub struct StdSource<R> {
    reader: R,
    faults: u64,
}

impl<R: Read> StdSource<R> {
    /// A source that reads from this reader. It takes no memory.
    pub fn new(reader: R) -> StdSource<R>
        ensures reader { result.reader ≡ reader }
        ensures faults { result.faults ≡ 0 }
    {
        StdSource { reader, faults: 0 }
    }
}

impl<R: Read> Source for StdSource<R> {
    ghost use Rattle.std.specs.Prelude.{None};

    ghost left = { λ _. None };

    ghost faults = { λ s. s.faults };

    fn take(&mut self, into: &mut [u8]) -> Result<usize, Failed>
        ensures faults { self.old.faults ≤ self.new.faults }
        ensures failed { OnErr result (Rose self.old.faults self.new.faults) }
        ensures within { IfOk result (λ k. k ≤ length into.old) }

        // An error is counted, and nothing else.
        ensures counted { OnErr result (self.new.faults ≡ one_more self.old.faults) }
        ensures rest { OnOk result (self.new.faults ≡ self.old.faults) }
    {
        match self.reader.read(into) {
            Ok(count) => Ok(count),
            Err(_) => {
                self.faults = self.faults.saturating_add(1);
                Err(Failed)
            }
        }
    }
}

/// Standard output, or another writer. It tells no contents. Each error counts as a failed write, and so
/// does a write that takes nothing of a piece that is not empty. It takes no memory.
#[derive(Drop)]
pub struct StdSink<W> {
    writer: W,
    faults: u64,
}

impl<W: Write> StdSink<W> {
    /// A sink that writes to this writer. It takes no memory.
    pub fn new(writer: W) -> StdSink<W>
        ensures writer { result.writer ≡ writer }
        ensures faults { result.faults ≡ 0 }
    {
        StdSink { writer, faults: 0 }
    }
}

impl<W: Write> Sink for StdSink<W> {
    ghost use Rattle.std.specs.Prelude.{None};

    ghost taken = { λ _. None };

    ghost faults = { λ s. s.faults };

    fn put(&mut self, piece: &[u8]) -> Result<usize, PutFault>
        ensures faults { self.old.faults ≤ self.new.faults }
        ensures failed { result ≡ Err PutFault.Failed → Rose self.old.faults self.new.faults }
        ensures within { IfOk result (λ k. k ≤ length piece.now) }
        ensures some { IfOk result (λ k. 0 < length piece.now → 0 < k) }

        // An error is counted, and nothing else; none of them is want of memory.
        ensures memory { result ≢ Err PutFault.NoMemory }
        ensures counted { OnErr result (self.new.faults ≡ one_more self.old.faults) }
        ensures rest { OnOk result (self.new.faults ≡ self.old.faults) }
    {
        match self.writer.write(piece) {
            Ok(count) if count > 0 || piece.is_empty() => Ok(count),
            _ => {
                self.faults = self.faults.saturating_add(1);
                Err(PutFault::Failed)
            }
        }
    }
}
