ghost use Rattle.std.specs.Prelude.{◌≡◌, ◌≢◌, ◌<◌, ◌≤◌, [], Some, IsOk, IfOk, OnErr, length, min, drop};
ghost use Rattle.mea_io.specs.Bytes.{Takes, Puts};
ghost use Rattle.mea_io.specs.Sure.{Sure, Kept};

use crate::sink::{PutFault, Sink};
use crate::source::{Failed, Source};
use std::alloc::Global;
use std::marker::Model;

/// Gives the bytes of a vector, a few at a time, and never fails.
#[derive(Drop)]
pub struct SureSource {
    bytes: Vec<u8>,
    at: usize,
    most: usize,
}

impl Model for SureSource {
    ghost use Rattle.std.specs.Prelude.{◌<◌, ◌≤◌, drop, length};
    ghost use Rattle.mea_io.specs.Sure.{Sure};

    ghost Value = { Sure };

    ghost view = { λ s. record { left = drop s.at s.bytes.items; most = s.most } };

    ghost invariant = { λ s. record { within : s.at ≤ length s.bytes.items; some : 0 < s.most } };
}

impl SureSource {
    /// A source of these bytes that gives at most `most` of them a call. It takes no memory.
    pub fn new(bytes: Vec<u8>, most: usize) -> SureSource
        requires { 0 < most }
        ensures { result ≡ record { left = bytes.items; most = most } }
    {
        SureSource { bytes, at: 0, most }
    }
}

impl Source for SureSource {
    ghost use Rattle.std.specs.Prelude.{Some};

    ghost left = { λ s. Some s.left };

    ghost faults = { λ _. 0 };

    fn take(&mut self, into: &mut [u8]) -> Result<usize, Failed>
        ensures succeeds { IsOk result }
        ensures within { IfOk result (λ k. k ≤ length into.old) }
        ensures told { IfOk result (Takes (Some self.old.left) (Some self.new.left) into.new) }
        ensures gives { IfOk result (λ k. (k ≡ min (min (length self.old.left) self.old.most) (length into.old)) × (self.new ≡ record self.old { left = drop k self.old.left })) }
    {
        let left = self.bytes.len() - self.at;
        let count = left.min(self.most).min(into.len());
        into[..count].copy_from_slice(&self.bytes[self.at..self.at + count]);
        self.at += count;
        Ok(count)
    }
}

/// Keeps what is written, a few bytes at a time, and never fails.
#[derive(Drop)]
pub struct SureSink {
    bytes: Vec<u8>,
    most: usize,
}

impl Model for SureSink {
    ghost use Rattle.std.specs.Prelude.{◌<◌};
    ghost use Rattle.mea_io.specs.Sure.{Kept};

    ghost Value = { Kept };

    ghost view = { λ s. record { bytes = s.bytes.items; most = s.most } };

    ghost invariant = { λ s. 0 < s.most };
}

impl SureSink {
    /// An empty sink that takes at most `most` bytes a call. It takes no memory.
    pub fn new(alloc: Global, most: usize) -> SureSink
        requires { 0 < most }
        ensures { result ≡ record { bytes = []; most = most } }
    {
        SureSink {
            bytes: Vec::new(alloc),
            most,
        }
    }

    /// The bytes that were taken. It takes no memory.
    pub fn bytes(&self) -> &[u8]
        ensures { result.now ≡ self.now.bytes }
    {
        self.bytes.as_slice()
    }
}

impl Sink for SureSink {
    ghost use Rattle.std.specs.Prelude.{Some};

    ghost taken = { λ s. Some s.bytes };

    ghost faults = { λ _. 0 };

    fn put(&mut self, piece: &[u8]) -> Result<usize, PutFault>
        ensures failed { result ≢ Err PutFault.Failed }
        ensures within { IfOk result (λ k. k ≤ length piece.now) }
        ensures some { IfOk result (λ k. 0 < length piece.now → 0 < k) }
        ensures told { IfOk result (Puts (Some self.old.bytes) (Some self.new.bytes) piece.now) }
        ensures takes { IfOk result (λ k. k ≡ min (length piece.now) self.old.most) }
        ensures err { OnErr result (self.new ≡ self.old) }
    {
        let count = piece.len().min(self.most);
        match self.bytes.extend_from_slice(&piece[..count]) {
            Ok(()) => Ok(count),
            Err(_) => Err(PutFault::NoMemory),
        }
    }
}
