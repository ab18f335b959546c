ghost use Rattle.std.specs.Prelude.{◌≡◌, ◌<◌, ◌≤◌, [], true, false, ℕ, Some, length, take, min, IfOk, OnOk, OnErr};
ghost use Rattle.mea_io.specs.Bytes.{Rose, Takes, Puts};
ghost use Rattle.mea_io.specs.Memory.{Given, Taken, fails_at, failed_read, given, failed_write, taken};

use crate::sink::{PutFault, Sink};
use crate::source::{Failed, Source};
use std::alloc::Global;
use std::marker::Model;

/// Gives the bytes of a vector, a few at a time, and fails the calls that it is told to fail.
#[derive(Drop)]
pub struct MemSource {
    bytes: Vec<u8>,
    at: usize,
    most: usize,
    fails: Vec<u64>,
    calls: u64,
    faults: u64,
}

impl Model for MemSource {
    ghost use Rattle.std.specs.Prelude.{◌<◌, ◌≤◌, drop, length};
    ghost use Rattle.mea_io.specs.Memory.{Given};

    ghost Value = { Given };

    ghost view = { λ s. record { left = drop s.at s.bytes.items; most = s.most; fails = s.fails.items; calls = s.calls; faults = s.faults } };

    ghost invariant = { λ s. record { within : s.at ≤ length s.bytes.items; some : 0 < s.most } };
}

impl MemSource {
    /// A source of these bytes that gives at most `most` of them a call, and fails the calls whose numbers,
    /// counted from 0, are in `fails`. It takes no memory.
    pub fn new(bytes: Vec<u8>, most: usize, fails: Vec<u64>) -> MemSource
        requires { 0 < most }
        ensures { result ≡ record { left = bytes.items; most = most; fails = fails.items; calls = 0; faults = 0 } }
    {
        MemSource {
            bytes,
            at: 0,
            most,
            fails,
            calls: 0,
            faults: 0,
        }
    }
}

impl Source for MemSource {
    ghost use Rattle.std.specs.Prelude.{Some};

    ghost left = { λ s. Some s.left };

    ghost faults = { λ s. s.faults };

    fn take(&mut self, into: &mut [u8]) -> Result<usize, Failed>
        ensures faults { self.old.faults ≤ self.new.faults }
        ensures failed { OnErr result (Rose self.old.faults self.new.faults) }
        ensures within { IfOk result (λ k. k ≤ length into.old) }
        ensures told { IfOk result (Takes (Some self.old.left) (Some self.new.left) into.new) }

        // Exactly the calls that it was told to fail fail.
        ensures fails { OnErr result ((fails_at self.old.fails self.old.calls ≡ true) × (self.new ≡ failed_read self.old)) }
        ensures gives { IfOk result (λ k. (fails_at self.old.fails self.old.calls ≡ false) × (k ≡ min (min (length self.old.left) self.old.most) (length into.old)) × (self.new ≡ given self.old k)) }
    {
        let fails = self.fails.contains(&self.calls);
        self.calls = self.calls.saturating_add(1);
        if fails {
            self.faults = self.faults.saturating_add(1);
            return Err(Failed);
        }
        let left = self.bytes.len() - self.at;
        let count = left.min(self.most).min(into.len());
        into[..count].copy_from_slice(&self.bytes[self.at..self.at + count]);
        self.at += count;
        Ok(count)
    }
}

/// Keeps what is written, a few bytes at a time, and fails the calls that it is told to fail.
#[derive(Drop)]
pub struct MemSink {
    bytes: Vec<u8>,
    most: usize,
    fails: Vec<u64>,
    calls: u64,
    faults: u64,
}

impl Model for MemSink {
    ghost use Rattle.std.specs.Prelude.{◌<◌};
    ghost use Rattle.mea_io.specs.Memory.{Taken};

    ghost Value = { Taken };

    ghost view = { λ s. record { bytes = s.bytes.items; most = s.most; fails = s.fails.items; calls = s.calls; faults = s.faults } };

    ghost invariant = { λ s. 0 < s.most };
}

impl MemSink {
    /// An empty sink that takes at most `most` bytes a call, and fails the calls whose numbers, counted from
    /// 0, are in `fails`. It takes no memory.
    pub fn new(alloc: Global, most: usize, fails: Vec<u64>) -> MemSink
        requires { 0 < most }
        ensures { result ≡ record { bytes = []; most = most; fails = fails.items; calls = 0; faults = 0 } }
    {
        MemSink {
            bytes: Vec::new(alloc),
            most,
            fails,
            calls: 0,
            faults: 0,
        }
    }

    /// The bytes that were taken. It takes no memory.
    pub fn bytes(&self) -> &[u8]
        ensures { result.now ≡ self.now.bytes }
    {
        self.bytes.as_slice()
    }
}

impl Sink for MemSink {
    ghost use Rattle.std.specs.Prelude.{Some};

    ghost taken = { λ s. Some s.bytes };

    ghost faults = { λ s. s.faults };

    fn put(&mut self, piece: &[u8]) -> Result<usize, PutFault>
        ensures faults { self.old.faults ≤ self.new.faults }
        ensures failed { result ≡ Err PutFault.Failed → Rose self.old.faults self.new.faults }
        ensures within { IfOk result (λ k. k ≤ length piece.now) }
        ensures some { IfOk result (λ k. 0 < length piece.now → 0 < k) }
        ensures told { IfOk result (Puts (Some self.old.bytes) (Some self.new.bytes) piece.now) }
        ensures err { OnErr result (Some self.new.bytes ≡ Some self.old.bytes) }

        // Exactly the calls that it was told to fail fail.
        ensures fails { result ≡ Err PutFault.Failed → (fails_at self.old.fails self.old.calls ≡ true) × (self.new ≡ failed_write self.old) }
        ensures takes { IfOk result (λ k. (fails_at self.old.fails self.old.calls ≡ false) × (k ≡ min (length piece.now) self.old.most) × (self.new ≡ taken self.old piece.now k)) }
    {
        let fails = self.fails.contains(&self.calls);
        self.calls = self.calls.saturating_add(1);
        if fails {
            self.faults = self.faults.saturating_add(1);
            return Err(PutFault::Failed);
        }
        let count = piece.len().min(self.most);
        if self.bytes.extend_from_slice(&piece[..count]).is_err() {
            return Err(PutFault::NoMemory);
        }
        Ok(count)
    }
}
