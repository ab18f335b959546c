ghost use Rattle.std.specs.Prelude.{◌≡◌, ◌+◌, ◌<◌, ◌≤◌, ◌^◌, [], ◌∷◌, ◌++◌, length, true, IsOk, IfNone, IfSome};
ghost use Rattle.mea_sets.specs.WaitSet.{has_given, is_registered};
ghost use Rattle.mea_sets.specs.Countdown.{Counting, count_from, PollsCount};
ghost use Rattle.mea_meet_core.specs.Count.{usable};

use crate::countdown_wait::CountdownWait;
use mea_base::{NoMemory, Outbox, Poll};
use mea_sets::Countdown;
use std::alloc::Global;
use std::marker::{Model, PhantomData};

/// The core of a meeting point of kind `K` that is a count and those who wait for its end: of a latch,
/// `LatchCore`, or of a wait group, `GroupCore`. The kind keeps their waits apart, and gives each the calls
/// that change its count.
pub struct CountdownCore<W, K> {
    pub(crate) countdown: Countdown<W>,
    kind: PhantomData<K>,
}

impl<W, K> Model for CountdownCore<W, K> {
    ghost use Rattle.mea_sets.specs.Countdown.{Counting, counting_code};

    ghost Value = { Counting W };

    ghost coded = { counting_code W.code };

    ghost view = { λ c. c.countdown };
}

// Written out: a derived one is proved anew in each crate that hands a value of this type to a generic function.
impl<W: Drop, K> Drop for CountdownCore<W, K> {
    fn drop(self) {
        let CountdownCore {
            countdown: _,
            kind: _,
        } = self;
    }
}

impl<W: Drop, K> CountdownCore<W, K> {
    // One with this count. It takes no memory.
    pub(crate) fn counting(alloc: Global, count: u32) -> Self
        ensures { result ≡ record { count = count_from count; wakes = [] } }
    {
        CountdownCore {
            countdown: Countdown::new(alloc, count),
            kind: PhantomData,
        }
    }

    /// Is ready at a count of 0. Else the waker is registered, in place of this wait's earlier one if that
    /// is registered; with no memory for a further one nothing has changed.
    pub fn poll(&mut self, wait: &mut CountdownWait<K>, waker: W) -> Result<Poll<()>, (W, NoMemory)>
        requires { has_given self.old.count.waiting wait.old ≡ true }
        ensures polls { PollsCount self.old.count wait.old waker result self.new.count wait.new }
        ensures wakes { self.new.wakes ≡ self.old.wakes }
        ensures replaces { is_registered self.old.count.waiting wait.old ≡ true → IsOk result }
    {
        self.countdown.poll(&mut wait.slot, waker)
    }

    /// Whether the wait belongs to this core, as `poll` asks. It takes no memory.
    pub fn poll_allowed(&self, wait: &CountdownWait<K>) -> bool
        ensures { result ≡ has_given self.now.count.waiting wait.now }
    {
        self.countdown.has_given(&wait.slot)
    }

    /// As `poll`, of a renewed wait where the wait does not belong to this core.
    pub fn poll_checked(
        &mut self,
        wait: &mut CountdownWait<K>,
        waker: W,
    ) -> Result<Poll<()>, (W, NoMemory)>
        ensures polls { PollsCount self.old.count (usable self.old.count wait.old) waker result self.new.count wait.new }
        ensures wakes { self.new.wakes ≡ self.old.wakes }
        ensures replaces { is_registered self.old.count.waiting wait.old ≡ true → IsOk result }
    {
        if !self.poll_allowed(wait) {
            wait.renew();
        }
        self.poll(wait, waker)
    }

    /// Ends a wait, whose waker stays. It takes no memory.
    pub fn end(&mut self, wait: CountdownWait<K>)
        requires { has_given self.old.count.waiting wait ≡ true }
        ensures { self.new ≡ self.old }
    {}

    /// Whether the wait belongs to this core, as `end` asks. It takes no memory.
    pub fn end_allowed(&self, wait: &CountdownWait<K>) -> bool
        ensures { result ≡ has_given self.now.count.waiting wait.now }
    {
        self.poll_allowed(wait)
    }

    /// As `end`; it changes nothing in any case. It takes no memory.
    pub fn end_checked(&mut self, wait: CountdownWait<K>)
        ensures { self.new ≡ self.old }
    {
        if self.end_allowed(&wait) {
            self.end(wait);
        }
    }

    /// How many wakers are registered. It takes no memory.
    pub fn registered(&self) -> usize
        ensures count { result ≡ length self.now.count.waiting.wakers }
        ensures over { self.now.count.number ≡ 0 → result ≡ 0 }
    {
        self.countdown.registered()
    }

    /// Whether the waker of this wait is registered. It takes no memory.
    pub fn is_registered(&self, wait: &CountdownWait<K>) -> bool
        ensures { result ≡ is_registered self.now.count.waiting wait.now }
    {
        self.countdown.is_registered(&wait.slot)
    }

    /// Moves the wakers that are ready to another outbox, in their order. It takes no memory.
    pub fn move_wakes(&mut self, out: &mut Outbox<W>)
        requires { length self.old.wakes ≤ out.old.spare }
        ensures moved { self.new ≡ record self.old { wakes = [] } }
        ensures wakers { out.new.wakers ≡ out.old.wakers ++ self.old.wakes }
        ensures spare { out.new.spare + length self.old.wakes ≡ out.old.spare }
    {
        self.countdown.move_wakes(out);
    }

    /// How many wakers are ready. It takes no memory.
    pub fn wakes_ready(&self) -> usize
        ensures is { result ≡ length self.now.wakes }
        ensures bound { result < 2 ^ 63 }
    {
        self.countdown.wakes_ready()
    }

    /// Takes the first waker that is ready. It takes no memory.
    pub fn next_wake(&mut self) -> Option<W>
        ensures first { IfSome result (λ w. self.old ≡ record self.new { wakes = w ∷ self.new.wakes }) }
        ensures empty { IfNone result ((self.old.wakes ≡ []) × (self.new ≡ self.old)) }
    {
        self.countdown.next_wake()
    }
}
