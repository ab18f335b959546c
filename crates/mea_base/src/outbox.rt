ghost use Rattle.std.specs.Prelude.{◌≡◌, ◌+◌, ◌-◌, ◌<◌, ◌≤◌, ◌^◌, [], ◌∷◌, ◌++◌, length, IsOk, OnOk, IfSome, IfNone};
ghost use Rattle.mea_base.specs.Outbox.{Wakes};

use crate::no_memory::NoMemory;
use std::alloc::Global;
use std::collections::VecDeque;
use std::marker::Model;

/// Wakers that calls have made ready and nobody has called yet, in the order in which they were made so.
///
/// Room is reserved when a waker is registered, so that to make it ready takes no memory.
pub struct Outbox<W> {
    wakers: VecDeque<W>,
}

impl<W> Model for Outbox<W> {
    ghost use Rattle.std.specs.Prelude.{◌-◌};
    ghost use Rattle.std.specs.VecDeque.{deque_capacity, deque_len};
    ghost use Rattle.mea_base.specs.Outbox.{Wakes, wakes_code};

    ghost Value = { Wakes W };

    ghost coded = { wakes_code W.code };

    ghost view = { λ o. record { wakers = o.wakers.items; spare = deque_capacity o.wakers - deque_len o.wakers } };
}

// Written out: a derived one is proved anew in each crate that hands a value of this type to a generic function.
impl<W: Drop> Drop for Outbox<W> {
    fn drop(self) {
        let Outbox { wakers: _ } = self;
    }
}

impl<W> Outbox<W> {
    /// An outbox with no waker. It takes no memory.
    pub fn new(alloc: Global) -> Self
        ensures { result.wakers ≡ [] }
    {
        Outbox {
            wakers: VecDeque::new(alloc),
        }
    }

    /// Makes room for `n` more wakers.
    pub fn reserve(&mut self, n: usize) -> Result<(), NoMemory>
        ensures room { OnOk result (n ≤ self.new.spare) }
        ensures succeeds { n ≤ self.old.spare → IsOk result }
        ensures grows { self.old.spare ≤ self.new.spare }
        ensures rest_kept { self.new ≡ record self.old { spare = self.new.spare } }
    {
        self.wakers.reserve(n)?;
        Ok(())
    }

    /// Appends a waker. It takes no memory.
    pub fn push(&mut self, waker: W)
        requires { 1 ≤ self.old.spare }
        ensures { self.new ≡ record { wakers = self.old.wakers ++ waker ∷ []; spare = self.old.spare - 1 } }
    {
        self.wakers.push_back_reserved(waker);
    }

    /// Takes the first waker. It takes no memory.
    pub fn pop(&mut self) -> Option<W>
        ensures first { IfSome result (λ waker. self.old.wakers ≡ waker ∷ self.new.wakers) }
        ensures frees { IfSome result (λ _. self.old.spare + 1 ≤ self.new.spare) }
        ensures empty { IfNone result ((self.old.wakers ≡ []) × (self.new ≡ self.old)) }
    {
        self.wakers.pop_front()
    }

    /// How many wakers are ready: always fewer than 2^63, so that two counts have a sum. It takes no memory.
    pub fn len(&self) -> usize
        ensures is { result ≡ length self.now.wakers }
        ensures bound { result < 2 ^ 63 }
    {
        self.wakers.len()
    }
}
