ghost use Rattle.std.specs.Prelude.{◌≡◌, [], length, true, IsSome, IfSome};
ghost use Rattle.mea_sets.specs.WaitSet.{is_registered, length_with};
ghost use Rattle.mea_sets.specs.Countdown.{count_from, decreasing};
ghost use Rattle.mea_meet_core.specs.Count.{tried};

use crate::countdown_core::CountdownCore;
use crate::countdown_wait::CountdownWait;
use std::alloc::Global;

/// The kind of a count that is a latch.
#[derive(Debug, PartialEq, Eq)]
pub struct LatchKind;

/// The core of a latch: a count that falls to 0 and stays there, and those who wait for that.
///
/// It ports `mea`'s `Latch` without its lock.
pub type LatchCore<W> = CountdownCore<W, LatchKind>;

/// The future of a wait on a latch. It ports the state of `mea`'s `LatchWait`.
pub type LatchWait = CountdownWait<LatchKind>;

impl<W: Drop> LatchCore<W> {
    /// A latch with this count. It takes no memory.
    pub fn new(alloc: Global, count: u32) -> Self
        ensures { result ≡ record { count = count_from count; wakes = [] } }
    {
        Self::counting(alloc, count)
    }

    /// The count. It takes no memory.
    pub fn count(&self) -> u32
        ensures { result ≡ self.now.count.number }
    {
        self.countdown.count()
    }

    /// Takes 1 from the count, at the least to 0, and wakes those who wait where it reaches 0 from
    /// above. It takes no memory.
    pub fn count_down(&mut self)
        ensures { self.new ≡ decreasing self.old 1 }
    {
        self.countdown.decrement(1);
    }

    /// Takes `n` from the count, at the least to 0, and wakes those who wait where it reaches 0 from
    /// above. It takes no memory.
    pub fn arrive(&mut self, n: u32)
        ensures { self.new ≡ decreasing self.old n }
    {
        self.countdown.decrement(n);
    }

    /// Ok at 0, else the count as the error. It takes no memory.
    pub fn try_wait(&self) -> Result<(), u32>
        ensures { result ≡ tried self.now.count }
    {
        match self.countdown.count() {
            0 => Ok(()),
            count => Err(count),
        }
    }

    /// How many wakers are registered once that of this wait is; None where that passes its type. It
    /// takes no memory.
    pub fn registered_with(&self, wait: &LatchWait) -> Option<usize>
        ensures count { IfSome result (λ n. n ≡ length_with self.now.count.waiting wait.now) }
        ensures registered { is_registered self.now.count.waiting wait.now ≡ true → IsSome result }
    {
        self.countdown.registered_with(&wait.slot)
    }
}
