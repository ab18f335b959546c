ghost use Rattle.std.specs.Prelude.{◌≡◌, ◌+◌, ◌-◌, ◌<◌, ◌≤◌, ◌^◌, [], ◌∷◌, ◌++◌, length, OnOk, OnErr, IfSome, IfNone};

use crate::no_memory::NoMemory;
use crate::outbox::Outbox;
use std::alloc::Global;
use std::marker::Model;

/// The wakers that were made ready, in the order in which they became so, with room for each that is registered in the
/// families to which the list is lent.
pub struct Ready<W> {
    outbox: Outbox<W>,
    registered: usize,
}

impl<W> Model for Ready<W> {
    ghost use Rattle.std.specs.Prelude.{◌≤◌};
    ghost use Rattle.mea_base.specs.Ready.{Waking, waking_code};

    ghost Value = { Waking W };

    ghost coded = { waking_code W.code };

    ghost view = { λ r. record { wakers = r.outbox.wakers; registered = r.registered } };

    ghost invariant = { λ r. r.registered ≤ r.outbox.spare };
}

// Written out: a derived one is proved anew in each crate that hands a value of this type to a generic function.
impl<W: Drop> Drop for Ready<W> {
    fn drop(self) {
        let Ready {
            outbox: _,
            registered: _,
        } = self;
    }
}

impl<W> Ready<W> {
    /// No waker, neither ready nor registered. It takes no memory.
    pub fn new(alloc: Global) -> Self
        ensures { result ≡ record { wakers = []; registered = 0 } }
    {
        Ready {
            outbox: Outbox::new(alloc),
            registered: 0,
        }
    }

    /// Counts one more registered waker, with room for it. On an error nothing has changed.
    pub fn register(&mut self) -> Result<(), NoMemory>
        ensures ok { OnOk result (self.new ≡ record self.old { registered = self.old.registered + 1 }) }
        ensures err { OnErr result (self.new ≡ self.old) }
    {
        let Some(registered) = self.registered.checked_add(1) else {
            return Err(NoMemory);
        };
        self.outbox.reserve(registered)?;
        self.registered = registered;
        Ok(())
    }

    /// Counts `n` registered wakers less, which were not woken. It takes no memory.
    pub fn unregister(&mut self, n: usize)
        requires { n ≤ self.old.registered }
        ensures { self.new ≡ record self.old { registered = self.old.registered - n } }
    {
        self.registered -= n;
    }

    /// Makes a registered waker ready. It takes no memory.
    pub fn wake(&mut self, waker: W)
        requires { 1 ≤ self.old.registered }
        ensures { self.new ≡ record { wakers = self.old.wakers ++ waker ∷ []; registered = self.old.registered - 1 } }
    {
        self.outbox.push(waker);
        self.registered -= 1;
    }

    /// How many wakers are registered. It takes no memory.
    pub fn registered(&self) -> usize
        ensures { result ≡ self.now.registered }
    {
        self.registered
    }

    /// How many wakers are ready. It takes no memory.
    pub fn len(&self) -> usize
        ensures is { result ≡ length self.now.wakers }
        ensures bound { result < 2 ^ 63 }
    {
        self.outbox.len()
    }

    /// Takes the first waker that is ready. It takes no memory.
    pub fn pop(&mut self) -> Option<W>
        ensures some { IfSome result (λ waker. self.old ≡ record self.new { wakers = waker ∷ self.new.wakers }) }
        ensures none { IfNone result ((self.old.wakers ≡ []) × (self.new ≡ self.old)) }
    {
        self.outbox.pop()
    }
}
