ghost use Rattle.std.specs.Prelude.{◌≡◌, ◌+◌, ◌-◌, ◌<◌, ◌≤◌, ◌^◌, ◌↔◌, [], ◌∷◌, ◌++◌, length, true, IsOk, IsErr, IsSome, OnErr, OnOk, IfSome, IfNone};
ghost use Rattle.mea_sets.specs.WaitSet.{is_registered, has_given, length_with};
ghost use Rattle.mea_sets.specs.Countdown.{Counting, count_from, decreasing, PollsCount};

use crate::place::Place;
use crate::wait_set::WaitSet;
use mea_base::{NoMemory, Outbox, Overflow, Poll};
use std::alloc::Global;
use std::marker::Model;

/// A count that waits for its end: at 0 it wakes everyone who is registered, and stays.
///
/// It ports `mea`'s internal `CountdownState`.
pub struct Countdown<W> {
    count: u32,
    waiting: WaitSet<W>,
    outbox: Outbox<W>,
}

impl<W> Model for Countdown<W> {
    ghost use Rattle.std.specs.Prelude.{◌≡◌, ◌<◌, ◌≤◌, [], length};
    ghost use Rattle.mea_sets.specs.Countdown.{Counting, counting_code};

    ghost Value = { Counting W };

    ghost coded = { counting_code W.code };

    ghost view = { λ c. record { count = record { number = c.count; waiting = c.waiting }; wakes = c.outbox.wakers } };

    ghost invariant = { λ c. record {
      room : length c.waiting.wakers ≤ c.outbox.spare;
      once : c.waiting.drains ≤ 1;
      first : 0 < c.count → c.waiting.drains ≡ 0;
      over : c.count ≡ 0 → c.waiting.wakers ≡ [];
    } };
}

// Written out: a derived one is proved anew in each crate that hands a value of this type to a generic function.
impl<W: Drop> Drop for Countdown<W> {
    fn drop(self) {
        let Countdown {
            count: _,
            waiting: _,
            outbox: _,
        } = self;
    }
}

impl<W: Drop> Countdown<W> {
    /// A count that nobody waits for. It takes no memory.
    pub fn new(alloc: Global, count: u32) -> Self
        ensures { result ≡ record { count = count_from count; wakes = [] } }
    {
        Countdown {
            count,
            waiting: WaitSet::new(alloc),
            outbox: Outbox::new(alloc),
        }
    }

    /// The count. It takes no memory.
    pub fn count(&self) -> u32
        ensures { result ≡ self.now.count.number }
    {
        self.count
    }

    /// How many wakers are registered. It takes no memory.
    pub fn registered(&self) -> usize
        ensures count { result ≡ length self.now.count.waiting.wakers }
        ensures over { self.now.count.number ≡ 0 → result ≡ 0 }
    {
        self.waiting.len()
    }

    /// Whether the slot names a waker that is registered. It takes no memory.
    pub fn is_registered(&self, slot: &Option<Place>) -> bool
        ensures { result ≡ is_registered self.now.count.waiting slot.now }
    {
        self.waiting.is_registered(slot)
    }

    /// How many wakers are registered once one is registered under the slot; None where that passes its
    /// type. It takes no memory.
    pub fn registered_with(&self, slot: &Option<Place>) -> Option<usize>
        ensures count { IfSome result (λ n. n ≡ length_with self.now.count.waiting slot.now) }
        ensures registered { is_registered self.now.count.waiting slot.now ≡ true → IsSome result }
    {
        self.waiting.len_with(slot)
    }

    /// Whether the slot is empty or holds a number that is not past this count's own: the test that a
    /// wait belongs to it. It takes no memory.
    pub fn has_given(&self, slot: &Option<Place>) -> bool
        ensures { result ≡ has_given self.now.count.waiting slot.now }
    {
        self.waiting.has_given(slot)
    }

    /// Adds `n` to a count that has not ended. It takes no memory.
    pub fn increment(&mut self, n: u32) -> Result<(), Overflow>
        requires { 0 < self.old.count.number }
        ensures ok { OnOk result (self.new ≡ record self.old { count = record self.old.count { number = self.old.count.number + n } }) }
        ensures overflow { IsErr result ↔ (2 ^ 32 ≤ self.old.count.number + n) }
        ensures fits { self.old.count.number < 2 ^ 32 }
        ensures err { OnErr result (self.new ≡ self.old) }
    {
        match self.count.checked_add(n) {
            Some(count) => {
                self.count = count;
                Ok(())
            }
            None => Err(Overflow),
        }
    }

    /// Takes `n` from the count, at the least to 0. Where it reaches 0 from above, all registered wakers
    /// are woken in the order of their registration. It takes no memory.
    pub fn decrement(&mut self, n: u32)
        ensures { self.new ≡ decreasing self.old n }
    {
        if self.count > 0 && self.count <= n {
            self.waiting.drain_into(&mut self.outbox);
        }
        self.count = self.count.saturating_sub(n);
    }

    /// Is ready at 0. Else the waker is registered, in place of the one that the slot names if that is
    /// registered; with no memory for a further one nothing has changed.
    pub fn poll(&mut self, slot: &mut Option<Place>, waker: W) -> Result<Poll<()>, (W, NoMemory)>
        ensures polls { PollsCount self.old.count slot.old waker result self.new.count slot.new }
        ensures wakes { self.new.wakes ≡ self.old.wakes }
        ensures replaces { is_registered self.old.count.waiting slot.old ≡ true → IsOk result }
    {
        if self.count == 0 {
            return Ok(Poll::Ready(()));
        }
        self.waiting
            .register_with_room(slot, waker, &mut self.outbox)?;
        Ok(Poll::Pending)
    }

    /// Moves the wakers that are ready to another outbox, in their order. It takes no memory.
    pub fn move_wakes(&mut self, out: &mut Outbox<W>)
        requires { length self.old.wakes ≤ out.old.spare }
        ensures moved { self.new ≡ record self.old { wakes = [] } }
        ensures wakers { out.new.wakers ≡ out.old.wakers ++ self.old.wakes }
        ensures spare { out.new.spare + length self.old.wakes ≡ out.old.spare }
    {
        while let Some(waker) = self.next_wake() {
            out.push(waker);
        }
    }

    /// How many wakers are ready. It takes no memory.
    pub fn wakes_ready(&self) -> usize
        ensures is { result ≡ length self.now.wakes }
        ensures bound { result < 2 ^ 63 }
    {
        self.outbox.len()
    }

    /// Takes the first waker that is ready. It takes no memory.
    pub fn next_wake(&mut self) -> Option<W>
        ensures first { IfSome result (λ w. self.old ≡ record self.new { wakes = w ∷ self.new.wakes }) }
        ensures empty { IfNone result ((self.old.wakes ≡ []) × (self.new ≡ self.old)) }
    {
        self.outbox.pop()
    }
}
