ghost use Rattle.std.specs.Prelude.{◌≡◌, ◌≢◌, ◌+◌, ◌-◌, ◌<◌, ◌≤◌, [], IfOk, OnOk, OnErr, vec_len, vec_capacity};

use crate::receipt::Receipt;
use mea_base::NoMemory;
use mea_events::SemEvent;
use std::alloc::Global;
use std::sync::ledger::{Ledger, Share};

/// An event that was asked, with its receipt.
#[derive(Clone, Copy, Debug, Drop, PartialEq, Eq)]
pub struct Noted {
    /// The event.
    pub asked: SemEvent,
    /// What was told of it.
    pub receipt: Receipt,
}

/// The leave to play events on one recorded semaphore: some parts of its ledger, with the receipts of the events
/// that were played by them. One thread holds it at a time.
#[derive(Drop)]
pub struct Pass<L: Ledger> {
    pub(crate) share: Share<L>,
    pub(crate) parts: u64,
    pub(crate) noted: Vec<Noted>,
    pub(crate) alloc: Global,
    pub ghost counted: { share.amount ≡ vec_len noted },
    pub ghost parted: { share.parts ≡ parts },
    pub ghost some: { 0 < parts },
}

impl<L: Ledger> Pass<L> {
    /// How many parts of the ledger it has. It takes no memory.
    pub fn parts(&self) -> u64
        ensures { result ≡ self.now.parts }
    {
        self.parts
    }

    /// The receipts of the events that were played by it, in their order. It takes no memory.
    pub fn noted(&self) -> &[Noted]
        ensures { result.now ≡ self.now.noted.items }
    {
        self.noted.as_slice()
    }

    /// Makes room for so many further receipts.
    pub fn reserve(&mut self, receipts: usize) -> Result<(), NoMemory>
        ensures room { OnOk result (vec_len self.new.noted + receipts ≤ vec_capacity self.new.noted) }
        ensures rest_kept { (self.new.parts ≡ self.old.parts) × (self.new.noted.items ≡ self.old.noted.items) }
    {
        let Pass {
            share: _,
            parts: _,
            noted,
            alloc: _,
        } = self;
        match noted.reserve(receipts) {
            Ok(()) => Ok(()),
            Err(_) => Err(NoMemory),
        }
    }

    /// Cuts one part off as a pass of its own with no receipts. It takes no memory.
    pub fn split(&mut self) -> Pass<L>
        requires { 2 ≤ self.old.parts }
        ensures given { (result.parts ≡ 1) × (result.noted.items ≡ []) }
        ensures left { (self.new.parts + 1 ≡ self.old.parts) × (self.new.noted.items ≡ self.old.noted.items) }
    {
        let Pass {
            share,
            parts,
            noted: _,
            alloc,
        } = self;
        let cut = share.split_off(1, 0);
        *parts -= 1;
        Pass {
            share: cut,
            parts: 1,
            noted: Vec::new(*alloc),
            alloc: *alloc,
        }
    }
}
