ghost use Rattle.std.specs.Prelude.{◌≡◌, ◌<◌, ◌↔◌, [], IsTrue, IsErr, OnErr, OnOk};
ghost use Rattle.mea_sets.specs.Countdown.{count_from, decreasing};
ghost use Rattle.mea_meet_core.specs.Count.{increased};

use crate::countdown_core::CountdownCore;
use crate::countdown_wait::CountdownWait;
use mea_base::Overflow;
use std::alloc::Global;

/// The kind of a count that is a wait group.
#[derive(Debug, PartialEq, Eq)]
pub struct GroupKind;

/// The core of a wait group: a count of handles, and those who wait for the end of the last.
///
/// It ports `mea`'s `WaitGroup` without its lock. A further handle is refused where the crate panics.
pub type GroupCore<W> = CountdownCore<W, GroupKind>;

/// The future of a wait for a wait group. It ports the state of `mea`'s `Wait` of a wait group.
pub type GroupWait = CountdownWait<GroupKind>;

impl<W: Drop> GroupCore<W> {
    /// A group with one handle. It takes no memory.
    pub fn new(alloc: Global) -> Self
        ensures { result ≡ record { count = count_from 1; wakes = [] } }
    {
        Self::at_count(alloc, 1)
    }

    /// A group with this many handles. It takes no memory.
    pub fn at_count(alloc: Global, count: u32) -> Self
        ensures { result ≡ record { count = count_from count; wakes = [] } }
    {
        Self::counting(alloc, count)
    }

    /// How many handles live. It takes no memory.
    ///
    /// The crate `mea` has no such call. It is here for one who has to know whether a further handle fits
    /// before `add` is asked for it.
    pub fn handles(&self) -> u32
        ensures { result ≡ self.now.count.number }
    {
        self.countdown.count()
    }

    /// One handle more, where one lives. It takes no memory.
    pub fn add(&mut self) -> Result<(), Overflow>
        requires { 0 < self.old.count.number }
        ensures ok { OnOk result (self.new ≡ record self.old { count = increased self.old.count }) }
        ensures overflow { IsErr result ↔ (self.old.count.number ≡ u32.MAX) }
        ensures err { OnErr result (self.new ≡ self.old) }
    {
        self.countdown.increment(1)
    }

    /// Whether a handle lives, as `add` asks. It takes no memory.
    pub fn add_allowed(&self) -> bool
        ensures { IsTrue result ↔ (0 < self.now.count.number) }
    {
        self.handles() > 0
    }

    /// As `add`; where no handle lives it is Ok and changes nothing. It takes no memory.
    pub fn add_checked(&mut self) -> Result<(), Overflow>
        ensures ok { OnOk result (0 < self.old.count.number → self.new ≡ record self.old { count = increased self.old.count }) }
        ensures overflow { IsErr result ↔ (self.old.count.number ≡ u32.MAX) }
        ensures err { OnErr result (self.new ≡ self.old) }
        ensures ended { self.old.count.number ≡ 0 → self.new ≡ self.old }
    {
        if self.add_allowed() {
            self.add()
        } else {
            Ok(())
        }
    }

    /// One handle less, where one lives; at the last it wakes those who wait. It takes no memory.
    pub fn leave(&mut self)
        requires { 0 < self.old.count.number }
        ensures { self.new ≡ decreasing self.old 1 }
    {
        self.countdown.decrement(1);
    }

    // As many handles less, as so many calls of `leave`; at the last it wakes those who wait. It takes no memory.
    pub(crate) fn leave_many(&mut self, n: u32)
        ensures { self.new ≡ decreasing self.old n }
    {
        self.countdown.decrement(n);
    }

    /// Whether a handle lives, as `leave` asks. It takes no memory.
    pub fn leave_allowed(&self) -> bool
        ensures { IsTrue result ↔ (0 < self.now.count.number) }
    {
        self.handles() > 0
    }

    /// As `leave`; where no handle lives it changes nothing. It takes no memory.
    pub fn leave_checked(&mut self)
        ensures leaves { 0 < self.old.count.number → self.new ≡ decreasing self.old 1 }
        ensures ended { self.old.count.number ≡ 0 → self.new ≡ self.old }
    {
        if self.leave_allowed() {
            self.leave();
        }
    }
}
