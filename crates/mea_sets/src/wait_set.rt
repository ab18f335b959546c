ghost use Rattle.std.specs.Prelude.{◌≡◌, ◌+◌, ◌-◌, ◌<◌, ◌≤◌, ◌^◌, ◌↔◌, [], ◌++◌, length, true, IsTrue, IsOk, IsSome, IfErr, IfSome, OnOk};
ghost use Rattle.mea_sets.specs.WaitSet.{Registered, is_registered, has_given, length_with, with_waker, slot_after, drained};

use crate::place::Place;
use mea_base::{NoMemory, Outbox};
use std::alloc::Global;
use std::collections::VecDeque;
use std::marker::Model;

/// Wakers that wait for one event, each registered under a number that never repeats. Those of ended
/// waits stay until the next drain.
///
/// It ports `mea`'s internal `WaitSet`, whose numbers come again after a drain.
pub struct WaitSet<W> {
    wakers: VecDeque<W>,
    drains: u128,
}

impl<W> Model for WaitSet<W> {
    ghost use Rattle.mea_sets.specs.WaitSet.{Registered, registered_code};

    ghost Value = { Registered W };

    ghost coded = { registered_code W.code };

    ghost view = { λ s. record { wakers = s.wakers.items; drains = s.drains } };
}

// Written out: a derived one is proved anew in each crate that hands a value of this type to a generic function.
impl<W: Drop> Drop for WaitSet<W> {
    fn drop(self) {
        let WaitSet {
            wakers: _,
            drains: _,
        } = self;
    }
}

impl<W: Drop> WaitSet<W> {
    /// A set with no waker, never drained. It takes no memory.
    pub fn new(alloc: Global) -> Self
        ensures { result ≡ record { wakers = []; drains = 0 } }
    {
        WaitSet {
            wakers: VecDeque::new(alloc),
            drains: 0,
        }
    }

    /// How often it was drained. It takes no memory.
    pub fn drains(&self) -> u128
        ensures { result ≡ self.now.drains }
    {
        self.drains
    }

    /// How many wakers are registered. It takes no memory.
    pub fn len(&self) -> usize
        ensures { result ≡ length self.now.wakers }
    {
        self.wakers.len()
    }

    /// How many wakers are registered once one is registered under the slot; None where that passes its
    /// type. It takes no memory.
    pub fn len_with(&self, slot: &Option<Place>) -> Option<usize>
        ensures count { IfSome result (λ n. n ≡ length_with self.now slot.now) }
        ensures registered { is_registered self.now slot.now ≡ true → IsSome result }
    {
        if self.is_registered(slot) {
            Some(self.wakers.len())
        } else {
            self.wakers.len().checked_add(1)
        }
    }

    /// Whether no waker is registered. It takes no memory.
    pub fn is_empty(&self) -> bool
        ensures { IsTrue result ↔ (self.now.wakers ≡ []) }
    {
        self.wakers.is_empty()
    }

    /// Whether the slot names a waker that is registered. It takes no memory.
    pub fn is_registered(&self, slot: &Option<Place>) -> bool
        ensures { result ≡ is_registered self.now slot.now }
    {
        match *slot {
            Some(place) => place.drains == self.drains && place.index < self.wakers.len(),
            None => false,
        }
    }

    /// Whether the slot is empty or holds a number that is not past the set's own: the test that a wait
    /// belongs to this set. It takes no memory.
    pub fn has_given(&self, slot: &Option<Place>) -> bool
        ensures { result ≡ has_given self.now slot.now }
    {
        match *slot {
            Some(place) => place.drains < self.drains
                || place.drains == self.drains && place.index < self.wakers.len(),
            None => true,
        }
    }

    /// Registers the waker under the slot's number where that is registered, in place of the waker
    /// there, else last and under a fresh number, which the slot then holds.
    pub fn register(&mut self, slot: &mut Option<Place>, waker: W) -> Result<(), (W, NoMemory)>
        ensures ok { OnOk result ((self.new ≡ with_waker self.old slot.old waker) × (slot.new ≡ slot_after self.old slot.old)) }
        ensures replaces { is_registered self.old slot.old ≡ true → IsOk result }
        ensures err { IfErr result (λ e. (e.0 ≡ waker) × (self.new ≡ self.old) × (slot.new ≡ slot.old)) }
    {
        if let Some(place) = *slot {
            if place.drains == self.drains && place.index < self.wakers.len() {
                self.wakers[place.index] = waker;
                return Ok(());
            }
        }
        let index = self.wakers.len();
        match self.wakers.push_back(waker) {
            Ok(()) => {
                *slot = Some(Place {
                    drains: self.drains,
                    index,
                });
                Ok(())
            }
            Err(failed) => Err((failed.value, NoMemory)),
        }
    }

    /// Registers the waker as `register` does once the outbox has room for all wakers that are registered
    /// then, so that draining them into it takes no memory.
    pub fn register_with_room(
        &mut self,
        slot: &mut Option<Place>,
        waker: W,
        out: &mut Outbox<W>,
    ) -> Result<(), (W, NoMemory)>
        ensures ok { OnOk result ((self.new ≡ with_waker self.old slot.old waker) × (slot.new ≡ slot_after self.old slot.old)) }
        ensures room { OnOk result (length self.new.wakers ≤ out.new.spare) }
        ensures replaces { is_registered self.old slot.old ≡ true → length self.old.wakers ≤ out.old.spare → IsOk result }
        ensures err { IfErr result (λ e. (e.0 ≡ waker) × (self.new ≡ self.old) × (slot.new ≡ slot.old)) }
        ensures out { (out.new.wakers ≡ out.old.wakers) × (out.old.spare ≤ out.new.spare) }
    {
        let Some(registered) = self.len_with(slot) else {
            return Err((waker, NoMemory));
        };
        if out.reserve(registered).is_err() {
            return Err((waker, NoMemory));
        }
        self.register(slot, waker)
    }

    /// Moves all wakers to the outbox, in their order. It takes no memory.
    pub fn drain_into(&mut self, out: &mut Outbox<W>)
        requires room { length self.old.wakers ≤ out.old.spare }
        requires few { self.old.drains < 2 ^ 128 - 1 }
        ensures drained { self.new ≡ drained self.old }
        ensures moved { out.new.wakers ≡ out.old.wakers ++ self.old.wakers }
        ensures spare { out.new.spare + length self.old.wakers ≡ out.old.spare }
    {
        self.drains += 1;
        move_wakers(&mut self.wakers, out);
    }
}

// Moves all wakers to the outbox, in their order.
fn move_wakers<W>(wakers: &mut VecDeque<W>, out: &mut Outbox<W>)
    requires { length wakers.old.items ≤ out.old.spare }
    ensures drained { wakers.new.items ≡ [] }
    ensures moved { out.new.wakers ≡ out.old.wakers ++ wakers.old.items }
    ensures spare { out.new.spare + length wakers.old.items ≡ out.old.spare }
{
    while let Some(waker) = wakers.pop_front() {
        out.push(waker);
    }
}
