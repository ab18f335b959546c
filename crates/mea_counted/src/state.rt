ghost use Rattle.std.specs.Prelude.{◌≡◌, ◌≢◌, ◌+◌, ◌-◌, ◌<◌, ◌≤◌, None, Some, IfOk, IfErr, IsErr, OnOk, OnErr, MatchResult, ◌↔◌, sum_by, [], false};
ghost use Rattle.std.specs.FinMap as map;
ghost use Rattle.mea_sem_core.specs.Core.{held_of, poured};
ghost use Rattle.mea_sem_core.specs.Calls.{given_back};
ghost use Rattle.mea_counted.specs.Named.{lack_of};

use crate::lack::Lack;
use crate::missing::Missing;
use crate::permit::NamedPermit;
use mea_base::Overflow;
use mea_sem_core::SemCore;
use std::alloc::Global;
use std::marker::Model;
use std::sync::ledger::{Blank, Book, Ledger, Share};

/// What lies under the lock of a named semaphore: the core, in which nobody waits, and the book, whose total is the
/// number of permits that are held.
pub struct NamedState<L: Ledger> {
    core: SemCore<u64>,
    book: Book<L>,
    // A share of nothing, with the parts that no permit has.
    rest: Share<L>,
    parts: u64,
    // All parts of the ledger.
    of: u64,
}

impl<L: Ledger> Model for NamedState<L> {
    ghost use Rattle.std.specs.Prelude.{◌≡◌, ◌<◌, ◌≤◌, [], false};
    ghost use Rattle.mea_sem_core.specs.Core.{held_of};
    ghost use Rattle.mea_counted.specs.Named.{State, state_code};

    ghost Value = { State };

    ghost coded = { state_code };

    ghost view = { λ s. record { core = s.core; parts = s.parts } };

    ghost invariant = { λ s. record {
      counted : s.book.total ≡ held_of s.core;
      nobody : s.core.queue ≡ [];
      is_open : s.core.closed ≡ false;
      nothing : s.rest.amount ≡ 0;
      parted : s.rest.parts ≡ s.parts;
      some : 0 < s.parts;
      within : s.parts ≤ s.of;
      whole : s.of ≡ L.parts;
    } };
}

// Written out: a derived one is proved anew in each crate that hands a value of this type to a generic function.
impl<L: Ledger> Drop for NamedState<L> {
    fn drop(self) {
        let NamedState {
            core: _,
            book: _,
            rest: _,
            parts: _,
            of: _,
        } = self;
    }
}

impl<L: Ledger> NamedState<L> {
    /// All permits are free, and no permit has a part. It takes no memory.
    pub fn new(alloc: Global, blank: Blank, parts: u64, permits: usize) -> NamedState<L>
        requires name { blank.name ≡ L.name }
        requires parts { (blank.parts ≡ L.parts) × (L.parts ≡ parts) × (2 ≤ parts) }
        ensures { result ≡ record { core = record { free = permits; live = permits; queue = []; granted = map.empty; cut = map.empty; closed = false; wakes = [] }; parts = parts } }
    {
        let (book, rest) = blank.open::<L>();
        NamedState {
            core: SemCore::new(alloc, permits),
            book,
            rest,
            parts,
            of: parts,
        }
    }

    /// Takes `n` permits if they are free, and one part for them if another is left. It takes no memory.
    pub fn try_acquire(&mut self, n: usize) -> Result<NamedPermit<L>, Lack>
        ensures permit { IfOk result (λ p. (p.permits ≡ n) × (p.parts ≡ 1)) }
        ensures taken { OnOk result ((self.new.core ≡ record self.old.core { free = self.old.core.free - n }) × (self.new.parts + 1 ≡ self.old.parts)) }
        ensures held { OnOk result (held_of self.new.core ≡ held_of self.old.core + n) }
        ensures lack { MatchResult result (λ _. lack_of self.old.core.free self.old.parts n ≡ None) (λ lack. lack_of self.old.core.free self.old.parts n ≡ Some lack) }
        ensures err { OnErr result (self.new ≡ self.old) }
    {
        let NamedState {
            core,
            book,
            rest,
            parts,
            of: _,
        } = self;
        if core.available_permits() < n {
            return Err(Lack::Permits);
        }
        if *parts == 1 {
            return Err(Lack::Parts);
        }
        core.try_acquire(n);
        let mut share = rest.split_off(1, 0);
        book.add(&mut share, n as u64);
        *parts -= 1;
        Ok(NamedPermit {
            permits: n,
            parts: 1,
            share,
        })
    }

    /// Adds permits. It is refused where more would live than the largest number. It takes no memory.
    pub fn release(&mut self, n: usize) -> Result<(), Overflow>
        ensures overflow { IsErr result ↔ (usize.MAX < self.old.core.live + n) }
        ensures ok { OnOk result (self.new.core ≡ poured self.old.core n) }
        ensures parts { self.new.parts ≡ self.old.parts }
        ensures held { held_of self.new.core ≡ held_of self.old.core }
        ensures err { OnErr result (self.new ≡ self.old) }
        ensures some { OnErr result (0 < n) }
    {
        self.core.release(n)
    }

    /// Adds permits, which the permit then holds. It is refused where more would live than the largest number. It takes
    /// no memory.
    pub fn grow(&mut self, permit: &mut NamedPermit<L>, n: usize) -> Result<(), Overflow>
        ensures overflow { IsErr result ↔ (usize.MAX < self.old.core.live + n) }
        ensures ok { OnOk result (self.new.core ≡ record (poured self.old.core n) { free = (poured self.old.core n).free - n }) }
        ensures parts { self.new.parts ≡ self.old.parts }
        ensures held { OnOk result (held_of self.new.core ≡ held_of self.old.core + n) }
        ensures grown { OnOk result (permit.new.permits ≡ permit.old.permits + n) }
        ensures same { permit.new.parts ≡ permit.old.parts }
        ensures err { OnErr result ((self.new ≡ self.old) × (permit.new.permits ≡ permit.old.permits)) }
        ensures some { OnErr result (0 < n) }
    {
        let NamedState {
            core,
            book,
            rest: _,
            parts: _,
            of: _,
        } = self;
        let NamedPermit {
            permits,
            parts: _,
            share,
        } = permit;
        core.release(n)?;
        core.try_acquire(n);
        book.add(share, n as u64);
        // What one permit holds is no more than what is held, and so no more than what lives.
        book.audit(share);
        *permits += n;
        Ok(())
    }

    /// Gives `n` permits of a permit back. It keeps its parts and the other permits. It takes no memory.
    pub fn give_back(&mut self, permit: &mut NamedPermit<L>, n: usize)
        requires { n ≤ permit.old.permits }
        ensures given { self.new.core ≡ given_back self.old.core n }
        ensures parts { self.new.parts ≡ self.old.parts }
        ensures held { held_of self.new.core + n ≡ held_of self.old.core }
        ensures left { permit.new.permits + n ≡ permit.old.permits }
        ensures same { permit.new.parts ≡ permit.old.parts }
    {
        let NamedState {
            core,
            book,
            rest: _,
            parts: _,
            of: _,
        } = self;
        let NamedPermit {
            permits,
            parts: _,
            share,
        } = permit;
        book.sub(share, n as u64);
        *permits -= n;
        core.give_back(n);
    }

    /// Gives the whole size of a permit back, and its parts. It takes no memory.
    pub fn end(&mut self, mut permit: NamedPermit<L>)
        ensures given { self.new.core ≡ given_back self.old.core permit.permits }
        ensures parts { self.new.parts ≡ self.old.parts + permit.parts }
        ensures held { held_of self.new.core + permit.permits ≡ held_of self.old.core }
    {
        let whole = permit.permits;
        self.give_back(&mut permit, whole);
        let NamedPermit {
            permits: _,
            parts: its,
            share,
        } = permit;
        let NamedState {
            core: _,
            book: _,
            rest,
            parts,
            of: _,
        } = self;
        rest.merge(share);
        *parts += its;
    }

    /// Ends the ledger. Where all parts are there, the sizes of the permits are together the number held. It takes no
    /// memory.
    pub fn close(self, permits: Vec<NamedPermit<L>>) -> Result<SemCore<u64>, Missing>
        ensures ok { IfOk result (λ core. (core ≡ self.core) × (self.parts + sum_by (λ p. p.parts) permits.items ≡ L.parts)) }
        ensures held { IfOk result (λ core. held_of core ≡ sum_by (λ p. p.permits) permits.items) }
        ensures missing { IfErr result (λ m. (m.parts ≡ self.parts + sum_by (λ p. p.parts) permits.items) × (m.of ≡ L.parts) × (m.parts ≢ L.parts)) }
        ensures apart { IfErr result (λ m. (m.parts < m.of) × (sum_by (λ p. p.parts) permits.items < m.parts)) }
        ensures open { (self.core.queue ≡ []) × (self.core.closed ≡ false) }
    {
        let NamedState {
            core,
            mut book,
            rest: mut all,
            mut parts,
            of,
        } = self;
        for permit in permits {
            let NamedPermit {
                permits: _,
                parts: more,
                share,
            } = permit;
            all.merge(share);
            parts += more;
        }
        if parts != of {
            return Err(Missing::new(parts, of));
        }
        book.audit(&mut all);
        Ok(core)
    }
}
