ghost use Rattle.std.specs.Prelude.{◌≡◌, ◌+◌, ◌<◌, ◌≤◌};

use std::sync::ledger::{Ledger, Share};

/// Permits of a named semaphore, with the share of the ledger that says that they are held. One that is dropped takes its
/// parts with it, which are then missing at the close.
#[derive(Drop)]
pub struct NamedPermit<L: Ledger> {
    pub(crate) permits: usize,
    pub(crate) parts: u64,
    pub(crate) share: Share<L>,
    pub ghost sized: { share.amount ≡ permits },
    pub ghost parted: { share.parts ≡ parts },
    pub ghost some: { 0 < parts },
}

impl<L: Ledger> NamedPermit<L> {
    /// How many permits they are. It takes no memory.
    pub fn permits(&self) -> usize
        ensures { result ≡ self.now.permits }
    {
        self.permits
    }

    /// How many parts of the ledger it has. It takes no memory.
    pub fn parts(&self) -> u64
        ensures { result ≡ self.now.parts }
    {
        self.parts
    }

    /// Takes the permits and the parts of another in. It takes no memory.
    pub fn merge(&mut self, other: NamedPermit<L>)
        requires permits { self.old.permits + other.permits ≤ usize.MAX }
        requires parts { self.old.parts + other.parts ≤ u64.MAX }
        ensures permits { self.new.permits ≡ self.old.permits + other.permits }
        ensures parts { self.new.parts ≡ self.old.parts + other.parts }
    {
        let NamedPermit {
            permits,
            parts,
            share,
        } = self;
        let NamedPermit {
            permits: more_permits,
            parts: more_parts,
            share: more,
        } = other;
        *permits += more_permits;
        *parts += more_parts;
        share.merge(more);
    }
}
