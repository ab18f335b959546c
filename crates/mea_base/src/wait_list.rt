ghost use Rattle.std.specs.Prelude.{◌≡◌, ◌+◌, ◌<◌, ◌≤◌, ◌==◌, ◌↔◌, [], ◌∷◌, ◌++◌, length, drop, IsTrue, IsOk, OnOk, OnErr, OnSome, IfOk, IfErr, IfSome, IfNone, Some, None, true, false, ℕ};
ghost use Rattle.std.specs.Borrow.{sem};
ghost use Rattle.mea_base.specs.WaitList.{get, without, is_linked, IsInUse, IsSound, StandsBefore, StandsLast, Updates};

use crate::links::{
    Node, SENTINEL, detach, insert_between, reserve_nodes, set_next_counted, set_prev_counted,
};
use crate::no_memory::NoMemory;
use crate::steps::Steps;
use slab::Slab;
use std::alloc::Global;
use std::marker::{Brand, Model};
use std::sync::ledger::{Blank, Ledger};

/// Values in a queue, each under a number of its own. A value that has left the queue stays under its
/// number until it is removed, so that its owner can still ask for it.
///
/// Room is reserved before a value is pushed, so that no later call takes memory. The queue is a ring of
/// links, so that a call looks at a value and its neighbours, however long the queue is. It stands for the
/// internal `WaitList` of the crate `mea`.
pub struct WaitList<T> {
    // The values, and from the first reservation on the sentinel.
    nodes: Slab<Node<T>>,
    // How many values are linked.
    len: usize,
    // Raised only once there is room, so that a `reserve` that fails changes nothing.
    spare: usize,
}

impl<T> Model for WaitList<T> {
    ghost use Rattle.std.specs.Prelude.{◌≡◌, ◌+◌, ◌≤◌, ◌<◌, ◌^◌, map, IsSome, None};
    ghost use Rattle.slab.specs.Slab.{slab_len};
    ghost use Rattle.mea_base.specs.WaitList.{Waits, waits_code, trim};
    ghost use Rattle.mea_base.specs.WaitListLinks.{node_at, value_of, order_of, IsRing};

    ghost Value = { Waits T };

    ghost coded = { waits_code T.code };

    ghost view = { λ w. record { order = order_of w.nodes.slots w.len; slots = trim (map value_of w.nodes.slots); spare = w.spare } };

    ghost invariant = { λ w. record {
      ring : IsRing w.nodes.slots (order_of w.nodes.slots w.len);
      first_key : node_at w.nodes.slots 0 ≡ None → w.nodes.vacant_key ≡ 0;
      sentinel : 1 ≤ w.spare → IsSome (node_at w.nodes.slots 0);
      room : slab_len w.nodes + w.spare ≤ w.nodes.capacity;
      fits : slab_len w.nodes + w.spare < 2 ^ 64;
    } };
}

// Written out: a derived one is proved anew in each crate that hands a value of this type to a generic function.
impl<T: Drop> Drop for WaitList<T> {
    fn drop(self) {
        let WaitList {
            nodes: _,
            len: _,
            spare: _,
        } = self;
    }
}

impl<T> WaitList<T> {
    ghost use Rattle.mea_base.specs.WaitListLends.{lends_value};

    /// A list with no value. It takes no memory.
    pub fn new(alloc: Global) -> Self
        ensures order { result.order ≡ [] }
        ensures slots { result.slots ≡ [] }
    {
        WaitList {
            nodes: Slab::new(alloc),
            len: 0,
            spare: 0,
        }
    }

    /// Makes room for `n` more values. It takes memory only where there is less room than that.
    pub fn reserve(&mut self, n: usize) -> Result<(), NoMemory>
        ensures room { OnOk result (n ≤ self.new.spare) }
        ensures succeeds { n ≤ self.old.spare → IsOk result }
        ensures grows { self.old.spare ≤ self.new.spare }
        ensures rest_kept { self.new ≡ record self.old { spare = self.new.spare } }
        ensures err { OnErr result (self.new ≡ self.old) }
    {
        if n <= self.spare {
            return Ok(());
        }
        reserve_nodes(&mut self.nodes, n)?;
        self.spare = self.nodes.capacity() - self.nodes.len();
        Ok(())
    }

    /// The first number in the queue. It takes no memory.
    pub fn first(&self) -> Option<usize>
        ensures some { IfSome result (λ n. self.now.order ≡ n ∷ drop 1 self.now.order) }
        ensures empty { IfNone result (self.now.order ≡ []) }
        ensures sound { IsSound self.now }
    {
        let first = self.nodes.get(SENTINEL)?.next;
        if first == SENTINEL { None } else { Some(first) }
    }

    /// The number right behind one that is in the queue. It takes no memory, and looks at the number alone.
    pub fn next(&self, number: usize) -> Option<usize>
        requires { is_linked self.now number ≡ true }
        ensures some { IfSome result (λ next. StandsBefore number next self.now.order) }
        ensures last { IfNone result (StandsLast number self.now.order) }
    {
        let next = self.nodes[number].next;
        if next == SENTINEL { None } else { Some(next) }
    }

    /// How many values are in the queue. It takes no memory.
    pub fn len(&self) -> usize
        ensures { result ≡ length self.now.order }
    {
        self.len
    }

    /// Whether no value is in the queue. It takes no memory.
    pub fn is_empty(&self) -> bool
        ensures { result ≡ (length self.now.order == 0) }
    {
        self.len == 0
    }

    /// Puts the value last in the queue, under a number that is not in use, or hands it back where there
    /// is no memory. It takes no memory where a place is spare.
    pub fn push_tail(&mut self, value: T) -> Result<usize, (T, NoMemory)>
        ensures fresh { IfOk result (λ n. get self.old n ≡ None) }
        ensures updates { IfOk result (λ n. Updates self.old self.new n (Some value)) }
        ensures order { IfOk result (λ n. self.new.order ≡ self.old.order ++ n ∷ []) }
        ensures sound { OnOk result (IsSound self.new) }
        ensures spare { OnOk result (self.old.spare ≤ self.new.spare + 1) }
        ensures succeeds { 1 ≤ self.old.spare → IsOk result }
        ensures value_returned { IfErr result (λ failed. failed.0 ≡ value) }
        ensures err { OnErr result (self.new ≡ self.old) }
    {
        if self.reserve(1).is_err() {
            return Err((value, NoMemory));
        }
        Ok(self.push_tail_reserved(value))
    }

    /// Puts the value first in the queue, under a number that is not in use, or hands it back where there
    /// is no memory. It takes no memory where a place is spare.
    pub fn push_head(&mut self, value: T) -> Result<usize, (T, NoMemory)>
        ensures fresh { IfOk result (λ n. get self.old n ≡ None) }
        ensures updates { IfOk result (λ n. Updates self.old self.new n (Some value)) }
        ensures order { IfOk result (λ n. self.new.order ≡ n ∷ self.old.order) }
        ensures sound { OnOk result (IsSound self.new) }
        ensures spare { OnOk result (self.old.spare ≤ self.new.spare + 1) }
        ensures succeeds { 1 ≤ self.old.spare → IsOk result }
        ensures value_returned { IfErr result (λ failed. failed.0 ≡ value) }
        ensures err { OnErr result (self.new ≡ self.old) }
    {
        if self.reserve(1).is_err() {
            return Err((value, NoMemory));
        }
        Ok(self.push_head_reserved(value))
    }

    // `push_tail` where a place is spare.
    fn push_tail_reserved(&mut self, value: T) -> usize
        requires { 1 ≤ self.old.spare }
        ensures fresh { get self.old result ≡ None }
        ensures updates { Updates self.old self.new result (Some value) }
        ensures order { self.new.order ≡ self.old.order ++ result ∷ [] }
        ensures sound { IsSound self.new }
        ensures spare { self.new.spare + 1 ≡ self.old.spare }
    {
        let last = self.nodes[SENTINEL].prev;
        let number = insert_between(&mut self.nodes, last, SENTINEL, value);
        self.len += 1;
        self.spare -= 1;
        number
    }

    // `push_head` where a place is spare.
    fn push_head_reserved(&mut self, value: T) -> usize
        requires { 1 ≤ self.old.spare }
        ensures fresh { get self.old result ≡ None }
        ensures updates { Updates self.old self.new result (Some value) }
        ensures order { self.new.order ≡ result ∷ self.old.order }
        ensures sound { IsSound self.new }
        ensures spare { self.new.spare + 1 ≡ self.old.spare }
    {
        let first = self.nodes[SENTINEL].next;
        let number = insert_between(&mut self.nodes, SENTINEL, first, value);
        self.len += 1;
        self.spare -= 1;
        number
    }

    /// Takes the number out of the queue, if it is there. Its value stays. It takes no memory, and looks
    /// at the number and its neighbours alone.
    pub fn unlink(&mut self, number: usize)
        requires { IsInUse self.old number }
        ensures { self.new ≡ record self.old { order = without number self.old.order } }
    {
        self.unlink_from::<Brand>(number, Blank::new(1));
    }

    // `unlink`, which opens a ledger for its steps and drops it.
    fn unlink_from<L: Ledger>(&mut self, number: usize, blank: Blank)
        requires in_use { IsInUse self.old number }
        requires name { blank.name ≡ L.name }
        requires parts { blank.parts ≡ L.parts }
        requires some { 0 < L.parts }
        ensures { self.new ≡ record self.old { order = without number self.old.order } }
    {
        let mut steps = Steps::<L>::new(blank);
        self.unlink_counted(number, &mut steps);
    }

    /// `unlink`, whose steps are counted: three for a number in the queue, which are looked at with its
    /// neighbours, and one else, however long the queue is. It takes no memory.
    pub fn unlink_counted<L: Ledger>(&mut self, number: usize, steps: &mut Steps<L>)
        requires { IsInUse self.old number }
        ensures is { self.new ≡ record self.old { order = without number self.old.order } }
        ensures linked { is_linked self.old number ≡ true → steps.new ≡ steps.old + 3 }
        ensures alone { is_linked self.old number ≡ false → steps.new ≡ steps.old + 1 }
    {
        let (prev, next) = detach(&mut self.nodes, number, steps);
        if next == number {
            return;
        }
        set_next_counted(&mut self.nodes, prev, next, steps);
        set_prev_counted(&mut self.nodes, next, prev, steps);
        self.len -= 1;
    }

    /// Takes the first number out of the queue. Its value stays. It takes no memory.
    pub fn unlink_first(&mut self) -> Option<usize>
        ensures some { IfSome result (λ n. self.old ≡ record self.new { order = n ∷ self.new.order }) }
        ensures empty { IfNone result (self.old.order ≡ []) }
        ensures unchanged { IfNone result (self.new ≡ self.old) }
        ensures sound { IsSound self.old }
    {
        let first = self.first()?;
        self.unlink(first);
        Some(first)
    }

    /// `unlink_first`, whose steps are counted: at most four, however long the queue is.
    pub fn unlink_first_counted<L: Ledger>(&mut self, steps: &mut Steps<L>) -> Option<usize>
        ensures some { IfSome result (λ n. self.old ≡ record self.new { order = n ∷ self.new.order }) }
        ensures empty { IfNone result (self.old.order ≡ []) }
        ensures unchanged { IfNone result (self.new ≡ self.old) }
        ensures sound { IsSound self.old }
        ensures few { steps.new ≤ steps.old + 4 }
        ensures four { OnSome result (steps.new ≡ steps.old + 4) }
    {
        let first = self.first_counted(steps)?;
        self.unlink_counted(first, steps);
        Some(first)
    }

    /// `first`, whose step is counted.
    pub fn first_counted<L: Ledger>(&self, steps: &mut Steps<L>) -> Option<usize>
        ensures some { IfSome result (λ n. self.now.order ≡ n ∷ drop 1 self.now.order) }
        ensures empty { IfNone result (self.now.order ≡ []) }
        ensures sound { IsSound self.now }
        ensures ticks { steps.new ≡ steps.old + 1 }
    {
        steps.tick();
        self.first()
    }

    /// `get_mut`, whose step is counted.
    pub fn get_mut_counted<L: Ledger>(&mut self, number: usize, steps: &mut Steps<L>) -> &mut T
        requires { IsInUse self.old number }
        ensures* writes_back { sem 𝓛 (lends_value T.row self.entry number result) }
        ensures value { get self.old number ≡ Some result.now }
        ensures ticks { steps.new ≡ steps.old + 1 }
    {
        steps.tick();
        self.get_mut(number)
    }

    /// Whether the number is in the queue. It takes no memory, and looks at the number alone.
    pub fn is_linked(&self, number: usize) -> bool
        requires { IsInUse self.now number }
        ensures { result ≡ is_linked self.now number }
    {
        self.nodes[number].next != number
    }

    /// Whether the number has a value, in the queue or not. It takes no memory.
    pub fn is_in_use(&self, number: usize) -> bool
        ensures { IsTrue result ↔ IsInUse self.now number }
    {
        match self.nodes.get(number) {
            Some(node) => node.value.is_some(),
            None => false,
        }
    }

    /// The value under a number that is in use. It takes no memory.
    pub fn get(&self, number: usize) -> &T
        requires { IsInUse self.now number }
        ensures { get self.now number ≡ Some result.now }
    {
        match &self.nodes[number].value {
            Some(value) => value,
            None => unreachable!(),
        }
    }

    /// The value under a number that is in use, for writing. It takes no memory.
    pub fn get_mut(&mut self, number: usize) -> &mut T
        requires { IsInUse self.old number }
        ensures* writes_back { sem 𝓛 (lends_value T.row self.entry number result) }
        ensures value { get self.old number ≡ Some result.now }
    {
        self.nodes[number].value.as_mut().unwrap()
    }

    /// Removes a value that has left the queue, and frees its number. It takes no memory.
    pub fn remove_unlinked(&mut self, number: usize) -> T
        requires in_use { IsInUse self.old number }
        requires unlinked { is_linked self.old number ≡ false }
        ensures value { get self.old number ≡ Some result }
        ensures updates { Updates self.old self.new number None }
        ensures order { self.new.order ≡ self.old.order }
        ensures spare { self.old.spare + 1 ≤ self.new.spare }
    {
        let Node { value, .. } = self.nodes.remove(number);
        self.spare += 1;
        match value {
            Some(value) => value,
            None => unreachable!(),
        }
    }
}
