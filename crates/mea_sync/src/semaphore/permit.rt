ghost use Rattle.std.specs.Prelude.{◌≡◌, ◌+◌, ◌<◌, ◌≤◌, None, MatchOption, MatchResult};
ghost use Rattle.std.specs.Arc.{arc_value};
ghost use Rattle.mea_sync.specs.Permits.{num_permits};

use crate::semaphore::Semaphore;
use mea_base::{NoMemory, Wake};
use mea_wait::{End, Holds};
use std::fmt;
use std::marker::PhantomData;
use std::sync::{Arc, Wait};

/// Permits of a semaphore that are held. They must be given back by `end`, or given up by `forget`. `num_permits` says in
/// contracts how many there are, and `of` whose they are.
pub struct Permit<H, W> {
    of: H,
    permits: usize,
    waker: PhantomData<W>,
}

/// Permits that borrow their semaphore. It ports `mea::semaphore::SemaphorePermit`.
pub type SemaphorePermit<'a, W> = Permit<&'a Semaphore<W>, W>;

/// Permits that own a share of their semaphore. It ports `mea::semaphore::OwnedSemaphorePermit`.
pub type OwnedSemaphorePermit<W> = Permit<Arc<Semaphore<W>>, W>;

impl<W: Wake, H: Holds<Semaphore<W>>> Permit<H, W> {
    // Permits that were just taken.
    pub(super) fn of(of: H, permits: usize) -> Self
        ensures permits { num_permits result ≡ permits }
        ensures of { result.of ≡ of }
    {
        Permit {
            of,
            permits,
            waker: PhantomData,
        }
    }

    /// How many permits it has. It takes no memory.
    pub fn permits(&self) -> usize
        ensures { result ≡ num_permits self.now }
    {
        self.permits
    }

    /// Gives the permits up: they are gone for ever. It takes no memory.
    pub fn forget<R: Wait>(self, rt: &R) {
        let Permit {
            of,
            permits,
            waker: _,
        } = self;
        of.held().core.lock(rt).lose_checked(permits);
    }

    // Takes the permits of another over, which is of the same semaphore, where the sum fits.
    fn add(&mut self, other: Self) -> Result<(), Self>
        ensures merged { MatchResult result
            (λ _. num_permits self.new ≡ num_permits self.old + num_permits other)
            (λ back. (usize.MAX < num_permits self.old + num_permits other) × (self.new ≡ self.old) × (back ≡ other)) }
        ensures of { self.new.of ≡ self.old.of }
    {
        match self.permits.checked_add(other.permits) {
            Some(sum) => {
                let Permit {
                    of: _,
                    permits: _,
                    waker: _,
                } = other;
                self.permits = sum;
                Ok(())
            }
            None => Err(other),
        }
    }
}

impl<'a, W: Wake> Permit<&'a Semaphore<W>, W> {
    /// Takes the permits of another over. The contract asks that both are of one semaphore, and that the sum fits. It takes no
    /// memory.
    pub fn merge(&mut self, other: Self)
        requires one { self.old.of.now ≡ other.of.now }
        requires fits { num_permits self.old + num_permits other ≤ usize.MAX }
        ensures permits { num_permits self.new ≡ num_permits self.old + num_permits other.entry }
        ensures of { self.new.of.now ≡ self.old.of.now }
    {
        let Permit {
            of: _,
            permits,
            waker: _,
        } = other;
        self.permits += permits;
    }

    /// `merge`, which hands the other back where the sum does not fit, and has then changed nothing. It takes no memory.
    pub fn try_merge(&mut self, other: Self) -> Result<(), Self>
        requires one { self.old.of.now ≡ other.of.now }
        ensures merged { MatchResult result
            (λ _. num_permits self.new ≡ num_permits self.old + num_permits other.entry)
            (λ back. (usize.MAX < num_permits self.old + num_permits other.entry) × (self.new ≡ self.old) × (back ≡ other.entry)) }
        ensures of { self.new.of.now ≡ self.old.of.now }
    {
        self.add(other)
    }

    /// Splits `n` permits off, or answers None where it has fewer. It takes no memory.
    pub fn split(&mut self, n: usize) -> Option<Self>
        ensures split { MatchOption result
            ((num_permits self.old < n) × (self.new ≡ self.old))
            (λ permit. (num_permits permit ≡ n) × (num_permits self.new + n ≡ num_permits self.old) × (permit.of.now ≡ self.old.of.now)) }
        ensures of { self.new.of.now ≡ self.old.of.now }
    {
        if n > self.permits {
            return None;
        }
        self.permits -= n;
        Some(Permit::of(self.of, n))
    }
}

impl<W: Wake> Permit<Arc<Semaphore<W>>, W> {
    /// Takes the permits of another over. The contract asks that both are of one semaphore, and that the sum fits. It takes no
    /// memory.
    pub fn merge(&mut self, other: Self)
        requires one { arc_value self.old.of ≡ arc_value other.of }
        requires fits { num_permits self.old + num_permits other ≤ usize.MAX }
        ensures permits { num_permits self.new ≡ num_permits self.old + num_permits other }
        ensures of { arc_value self.new.of ≡ arc_value self.old.of }
    {
        let Permit {
            of: _,
            permits,
            waker: _,
        } = other;
        self.permits += permits;
    }

    /// `merge`, which hands the other back where the sum does not fit, and has then changed nothing. It takes no memory.
    pub fn try_merge(&mut self, other: Self) -> Result<(), Self>
        requires one { arc_value self.old.of ≡ arc_value other.of }
        ensures merged { MatchResult result
            (λ _. num_permits self.new ≡ num_permits self.old + num_permits other)
            (λ back. (usize.MAX < num_permits self.old + num_permits other) × (self.new ≡ self.old) × (back ≡ other)) }
        ensures of { arc_value self.new.of ≡ arc_value self.old.of }
    {
        self.add(other)
    }

    /// Splits `n` permits off, or answers None where it has fewer. A further share of the semaphore may be
    /// refused, and then nothing has changed.
    pub fn split(&mut self, n: usize) -> Result<Option<Self>, NoMemory>
        ensures split { MatchResult result
            (λ part. MatchOption part
            ((num_permits self.old < n) × (self.new ≡ self.old))
            (λ permit. (num_permits permit ≡ n) × (num_permits self.new + n ≡ num_permits self.old) × (arc_value permit.of ≡ arc_value self.old.of)))
            (λ _. (self.new ≡ self.old) × (n ≤ num_permits self.old)) }
        ensures of { arc_value self.new.of ≡ arc_value self.old.of }
    {
        if n > self.permits {
            return Ok(None);
        }
        let of = Arc::try_clone(&self.of)?;
        self.permits -= n;
        Ok(Some(Permit::of(of, n)))
    }
}

// Whose they are is not shown: that stands behind a lock.
impl<H, W> fmt::Debug for Permit<H, W> {
    fn fmt<O: fmt::Write>(&self, f: &mut fmt::Formatter<O>) -> fmt::Result {
        write!(f, "Permit {{ permits: {}, .. }}", self.permits)
    }
}

impl<W: Wake, H: Holds<Semaphore<W>>> End for Permit<H, W> {
    fn end<R: Wait>(self, rt: &R) {
        let Permit {
            of,
            permits,
            waker: _,
        } = self;
        of.held().give_back(rt, permits);
    }
}
