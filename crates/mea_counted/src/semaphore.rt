ghost use Rattle.std.specs.Prelude.{◌≡◌, ◌+◌, ◌<◌, ◌≤◌, ◌^◌, ℕ, [], false, Some, IfOk, IfErr, OnOk, OnErr, sum_by};
ghost use Rattle.mea_sem_core.specs.Core.{held_of};
ghost use Rattle.mea_counted.specs.Named.{lack_of};

use crate::lack::Lack;
use crate::missing::Missing;
use crate::permit::NamedPermit;
use crate::state::NamedState;
use mea_base::Overflow;
use mea_sem_core::SemCore;
use std::alloc::Global;
use std::sync::ledger::{Blank, Ledger};
use std::sync::{Mutex, Wait};

/// A semaphore that threads share, whose type names the ledger of its permits. Each call takes the lock, makes the call
/// of the same name on what lies behind it, and leaves; the exact clauses stand there.
pub struct NamedSemaphore<L: Ledger> {
    state: Mutex<NamedState<L>>,
}

// Written out: a derived one is proved anew in each crate that hands a value of this type to a generic function.
impl<L: Ledger> Drop for NamedSemaphore<L> {
    fn drop(self) {
        let NamedSemaphore { state: _ } = self;
    }
}

impl<L: Ledger> NamedSemaphore<L> {
    /// A semaphore with these permits, all of them free, of a ledger with so many parts. It takes no memory.
    pub fn new(alloc: Global, blank: Blank, parts: u64, permits: usize) -> NamedSemaphore<L>
        requires name { blank.name ≡ L.name }
        requires parts { (blank.parts ≡ L.parts) × (L.parts ≡ parts) × (2 ≤ parts) }
    {
        NamedSemaphore {
            state: Mutex::new(NamedState::new(alloc, blank, parts, permits)),
        }
    }

    /// Takes `n` permits if they are free, and one part for them if another is left. It takes no memory.
    pub fn try_acquire<R: Wait>(&self, rt: &R, n: usize) -> Result<NamedPermit<L>, Lack>
        ensures permit { IfOk result (λ p. (p.permits ≡ n) × (p.parts ≡ 1)) }
        ensures lack { IfErr result (λ lack. (free : ℕ) × (parts : ℕ) × (lack_of free parts n ≡ Some lack)) }
    {
        self.state.lock(rt).try_acquire(n)
    }

    /// Adds permits. It is refused where more would live than the largest number. It takes no memory.
    pub fn release<R: Wait>(&self, rt: &R, n: usize) -> Result<(), Overflow>
        ensures { OnErr result (0 < n) }
    {
        self.state.lock(rt).release(n)
    }

    /// Ends the ledger, with all permits that are to be counted. Where all parts are there, the sizes of these permits are
    /// together the number held. It takes no memory.
    pub fn close(self, permits: Vec<NamedPermit<L>>) -> Result<SemCore<u64>, Missing>
        ensures held { IfOk result (λ core. held_of core ≡ sum_by (λ p. p.permits) permits.items) }
        ensures none { permits.items ≡ [] → IfOk result (λ core. held_of core ≡ 0) }
        ensures open { IfOk result (λ core. (core.queue ≡ []) × (core.closed ≡ false)) }
        ensures missing { IfErr result (λ m. (sum_by (λ p. p.parts) permits.items < m.parts) × (m.parts < m.of) × (m.of ≡ L.parts)) }
    {
        let NamedSemaphore { state } = self;
        state.into_inner().close(permits)
    }
}

impl<L: Ledger> NamedPermit<L> {
    /// Adds permits to the semaphore, which this permit then holds. It is refused where more would live than the largest
    /// number. It takes no memory.
    pub fn grow<R: Wait>(
        &mut self,
        rt: &R,
        of: &NamedSemaphore<L>,
        n: usize,
    ) -> Result<(), Overflow>
        ensures parts { self.new.parts ≡ self.old.parts }
        ensures grown { OnOk result (self.new.permits ≡ self.old.permits + n) }
        ensures err { OnErr result ((0 < n) × (self.new.permits ≡ self.old.permits)) }
    {
        of.state.lock(rt).grow(self, n)
    }

    /// Gives `n` of the permits back, and keeps the others and all parts. It takes no memory.
    pub fn give_back<R: Wait>(&mut self, rt: &R, of: &NamedSemaphore<L>, n: usize)
        requires { n ≤ self.old.permits }
        ensures left { self.new.permits + n ≡ self.old.permits }
        ensures parts { self.new.parts ≡ self.old.parts }
    {
        of.state.lock(rt).give_back(self, n);
    }

    /// Gives the whole size back, and the parts. It takes no memory.
    pub fn end<R: Wait>(self, rt: &R, of: &NamedSemaphore<L>) {
        of.state.lock(rt).end(self);
    }
}
