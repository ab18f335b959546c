ghost use Rattle.std.specs.Prelude.{◌≡◌, ◌*◌, ◌<◌, ◌^◌, [], ◌∷◌, length, max, true, false, IsOk, IfNone, IfSome};
ghost use Rattle.mea_sets.specs.WaitSet as sets;
ghost use Rattle.mea_meet_core.specs.declared.barrier_wait.BarrierWait.{BarrierWait};
ghost use Rattle.mea_meet_core.specs.Barrier.{Arrives, Returns, Polls, leads, has_seen, is_own, is_open, is_registered, usable_wait};

use crate::barrier_fault::BarrierFault;
use crate::barrier_wait::BarrierWait;
use crate::barrier_wait_result::BarrierWaitResult;
use mea_base::{NoMemory, Outbox, Poll};
use mea_sets::{Place, WaitSet};
use std::alloc::Global;
use std::marker::Model;

/// The core of a barrier: whoever arrives waits until as many have arrived as make a round; the last of
/// them leads, and wakes the others.
///
/// It counts the arrivals of the round under way and numbers the rounds; it is seen as the number of all
/// arrivals. It ports `mea`'s `Barrier` without its lock.
pub struct BarrierCore<W> {
    size: u32,
    round: u64,
    arrived: u32,
    waiting: WaitSet<W>,
    outbox: Outbox<W>,
}

impl<W> Model for BarrierCore<W> {
    ghost use Rattle.std.specs.Prelude.{◌≡◌, ◌+◌, ◌*◌, ◌<◌, ◌≤◌, length};
    ghost use Rattle.mea_meet_core.specs.Barrier.{Barrier, barrier_code};

    ghost Value = { Barrier W };

    ghost coded = { barrier_code W.code };

    ghost view = { λ b. record { size = b.size; arrivals = b.round * b.size + b.arrived; waiting = b.waiting; wakes = b.outbox.wakers } };

    ghost invariant = { λ b. record {
      within : b.arrived < b.size;
      room : length b.waiting.wakers ≤ b.outbox.spare;
      drained : b.waiting.drains ≤ b.round;
    } };
}

// Written out: a derived one is proved anew in each crate that hands a value of this type to a generic function.
impl<W: Drop> Drop for BarrierCore<W> {
    fn drop(self) {
        let BarrierCore {
            size: _,
            round: _,
            arrived: _,
            waiting: _,
            outbox: _,
        } = self;
    }
}

impl<W: Drop> BarrierCore<W> {
    /// A barrier whose rounds are of `n` arrivals; 0 counts as 1. It takes no memory.
    pub fn new(alloc: Global, n: u32) -> Self
        ensures { result ≡ record { size = max n 1; arrivals = 0; waiting = record { wakers = []; drains = 0 }; wakes = [] } }
    {
        Self::at_round(alloc, n, 0)
    }

    /// A barrier whose rounds are of `n` arrivals, at the start of the round of this number; 0 counts as
    /// 1. It takes no memory.
    pub fn at_round(alloc: Global, n: u32, round: u64) -> Self
        ensures { result ≡ record { size = max n 1; arrivals = round * max n 1; waiting = record { wakers = []; drains = 0 }; wakes = [] } }
    {
        BarrierCore {
            size: n.max(1),
            round,
            arrived: 0,
            waiting: WaitSet::new(alloc),
            outbox: Outbox::new(alloc),
        }
    }

    /// A first poll arrives: it leads where it completes the round, and wakes all who are registered;
    /// else it waits. A later poll is ready once its round is completed, and never leads. It takes memory
    /// only for a waker that is not registered yet. On an error nothing has changed.
    pub fn poll(
        &mut self,
        wait: &mut BarrierWait,
        waker: W,
    ) -> Result<Poll<BarrierWaitResult>, BarrierFault<W>>
        requires { is_open self.old wait.old ≡ true }
        ensures polls { Polls self.old wait.old waker result self.new wait.new }
        ensures replaces { is_registered self.old wait.old ≡ true → IsOk result }
        ensures sized { 0 < self.old.size }
    {
        match *wait {
            BarrierWait::Arrived { round, slot } => self.poll_again(wait, round, slot, waker),
            BarrierWait::New | BarrierWait::Done => self.arrive(wait, waker),
        }
    }

    // Whether the next arrival completes the round.
    fn leads(&self) -> bool
        ensures { result ≡ leads self.now }
    {
        self.arrived == self.size - 1
    }

    // Whether the round and the slot are not past the barrier's own.
    fn has_seen(&self, round: u64, slot: &Option<Place>) -> bool
        ensures { result ≡ has_seen self.now round slot.now }
    {
        round <= self.round && self.waiting.has_given(slot)
    }

    // A first poll.
    fn arrive(
        &mut self,
        wait: &mut BarrierWait,
        waker: W,
    ) -> Result<Poll<BarrierWaitResult>, BarrierFault<W>>
        requires { wait.old ≡ BarrierWait.New }
        ensures arrives { Arrives self.old waker result self.new wait.new }
        ensures sized { 0 < self.old.size }
    {
        if !self.leads() {
            return self.join(wait, waker);
        }
        if self.round == u64::MAX {
            return Err(BarrierFault::Overflow(waker));
        }
        self.round += 1;
        self.arrived = 0;
        self.waiting.drain_into(&mut self.outbox);
        *wait = BarrierWait::Done;
        Ok(Poll::Ready(BarrierWaitResult { leads: true }))
    }

    // A first poll that does not complete the round.
    fn join(
        &mut self,
        wait: &mut BarrierWait,
        waker: W,
    ) -> Result<Poll<BarrierWaitResult>, BarrierFault<W>>
        requires unpolled { wait.old ≡ BarrierWait.New }
        requires waits { leads self.old ≡ false }
        ensures { Arrives self.old waker result self.new wait.new }
    {
        let mut slot = None;
        match self
            .waiting
            .register_with_room(&mut slot, waker, &mut self.outbox)
        {
            Ok(()) => {
                self.arrived += 1;
                *wait = BarrierWait::Arrived {
                    round: self.round,
                    slot,
                };
                Ok(Poll::Pending)
            }
            Err((waker, NoMemory)) => Err(BarrierFault::NoMemory(waker)),
        }
    }

    // A later poll of a wait that arrived in this round.
    fn poll_again(
        &mut self,
        wait: &mut BarrierWait,
        round: u64,
        slot: Option<Place>,
        waker: W,
    ) -> Result<Poll<BarrierWaitResult>, BarrierFault<W>>
        requires { wait.old ≡ BarrierWait.Arrived round slot }
        ensures returns { Returns self.old round slot waker result self.new wait.new }
        ensures replaces { sets.is_registered self.old.waiting slot ≡ true → IsOk result }
        ensures sized { 0 < self.old.size }
    {
        if round < self.round {
            *wait = BarrierWait::Done;
            return Ok(Poll::Ready(BarrierWaitResult { leads: false }));
        }
        let mut slot = slot;
        match self
            .waiting
            .register_with_room(&mut slot, waker, &mut self.outbox)
        {
            Ok(()) => {
                *wait = BarrierWait::Arrived { round, slot };
                Ok(Poll::Pending)
            }
            Err((waker, NoMemory)) => Err(BarrierFault::NoMemory(waker)),
        }
    }

    /// Whether the wait belongs to this barrier and was not ready, as `poll` asks. It takes no memory.
    pub fn poll_allowed(&self, wait: &BarrierWait) -> bool
        ensures { result ≡ is_open self.now wait.now }
    {
        match *wait {
            BarrierWait::New => true,
            BarrierWait::Arrived { round, slot } => self.has_seen(round, &slot),
            BarrierWait::Done => false,
        }
    }

    /// As `poll`, of a renewed wait where the wait does not belong to this barrier or was ready.
    pub fn poll_checked(
        &mut self,
        wait: &mut BarrierWait,
        waker: W,
    ) -> Result<Poll<BarrierWaitResult>, BarrierFault<W>>
        ensures polls { Polls self.old (usable_wait self.old wait.old) waker result self.new wait.new }
        ensures replaces { is_registered self.old (usable_wait self.old wait.old) ≡ true → IsOk result }
    {
        if !self.poll_allowed(wait) {
            wait.renew();
        }
        self.poll(wait, waker)
    }

    /// Ends a wait. Its arrival and its waker stay. It takes no memory.
    pub fn end(&mut self, wait: BarrierWait)
        requires { is_own self.old wait ≡ true }
        ensures { self.new ≡ self.old }
    {}

    /// Whether the wait belongs to this barrier, as `end` asks. It takes no memory.
    pub fn end_allowed(&self, wait: &BarrierWait) -> bool
        ensures { result ≡ is_own self.now wait.now }
    {
        match *wait {
            BarrierWait::New | BarrierWait::Done => true,
            BarrierWait::Arrived { round, slot } => self.has_seen(round, &slot),
        }
    }

    /// As `end`; it changes nothing in any case. It takes no memory.
    pub fn end_checked(&mut self, wait: BarrierWait)
        ensures { self.new ≡ self.old }
    {
        if self.end_allowed(&wait) {
            self.end(wait);
        }
    }

    /// Whether the waker of this wait is registered, as that of one that waits for the end of its round is. It takes no memory.
    pub fn is_registered(&self, wait: &BarrierWait) -> bool
        ensures { result ≡ is_registered self.now wait.now }
    {
        match *wait {
            BarrierWait::Arrived { slot, .. } => self.waiting.is_registered(&slot),
            BarrierWait::New | BarrierWait::Done => false,
        }
    }

    /// How many wakers are registered. It takes no memory.
    pub fn registered(&self) -> usize
        ensures { result ≡ length self.now.waiting.wakers }
    {
        self.waiting.len()
    }

    /// How many wakers are ready. It takes no memory.
    pub fn wakes_ready(&self) -> usize
        ensures is { result ≡ length self.now.wakes }
        ensures bound { result < 2 ^ 63 }
    {
        self.outbox.len()
    }

    /// Takes the first waker that is ready. It takes no memory.
    pub fn next_wake(&mut self) -> Option<W>
        ensures first { IfSome result (λ w. self.old ≡ record self.new { wakes = w ∷ self.new.wakes }) }
        ensures empty { IfNone result ((self.old.wakes ≡ []) × (self.new ≡ self.old)) }
    {
        self.outbox.pop()
    }
}
