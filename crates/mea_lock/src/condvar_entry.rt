ghost use Rattle.std.specs.Prelude.{◌≡◌, ◌+◌, ◌-◌, ◌<◌, ◌≤◌, ◌^◌, [], nat_lt, length, is_some, IsTrue, IsSome, IfOk, IfSome, IfNone, OnErr, ◌↔◌};
ghost use Rattle.std.specs.FinMap as map;
ghost use Rattle.mea_lock_core.specs.Condvar.{Knows, Lists, waker_under, without_wait};

use mea_base::{NoMemory, Ready};
use mea_by_name::NamedWaker;
use mea_lock_core::CondvarCore;
use std::alloc::Global;
use std::marker::Model;

/// What a hall keeps of a condition variable. Only `list_if` takes memory.
#[derive(Drop)]
pub struct CondvarEntry {
    core: CondvarCore<NamedWaker>,
    // How many waits it has.
    waits: u128,
}

impl Model for CondvarEntry {
    ghost use Rattle.mea_lock.specs.CondEntries.{KeptCondvar, kept_condvar_code};

    ghost Value = { KeptCondvar };

    ghost coded = { kept_condvar_code };

    ghost view = { λ e. record { condvar = e.core; waits = e.waits } };
}

impl CondvarEntry {
    ghost use Rattle.mea_lock.specs.CondEntries.{IsWaitingUnder, ListsAt, counted_at, rewoken_under, left_under, forgotten_under, NotifiesFirst, NotifiesEach};

    /// A condition variable that has no wait.
    pub fn new(alloc: Global) -> Self
        ensures { result ≡ record { condvar = record { waiting = []; notified = map.empty; wakes = [] }; waits = 0 } }
    {
        CondvarEntry {
            core: CondvarCore::new(alloc),
            waits: 0,
        }
    }

    /// Its core.
    pub fn core(&self) -> &CondvarCore<NamedWaker>
        ensures { result.now ≡ self.now.condvar }
    {
        &self.core
    }

    /// Whether it has a wait.
    pub fn has_waits(&self) -> bool
        ensures { result ≡ nat_lt 0 self.now.waits }
    {
        self.waits > 0
    }

    /// One wait more.
    pub fn begin(&mut self)
        requires { self.old.waits + 1 < 2 ^ 128 }
        ensures { self.new ≡ record self.old { waits = self.old.waits + 1 } }
    {
        self.waits += 1;
    }

    /// One wait less.
    pub fn finish(&mut self)
        requires { 1 ≤ self.old.waits }
        ensures { self.new ≡ record self.old { waits = self.old.waits - 1 } }
    {
        self.waits -= 1;
    }

    /// Whether a wait waits that is listed under this number, or not listed.
    pub fn is_waiting_under(&self, number: Option<usize>) -> bool
        requires { IfSome number (λ n. Knows self.now.condvar n) }
        ensures { IsTrue result ↔ IsWaitingUnder self.now.condvar number }
    {
        match number {
            Some(number) => self.core.is_waiting(number),
            None => false,
        }
    }

    // Lists the wait that is named f, and tells its number. Its waker is counted first. On an error nothing has
    // changed.
    fn list(&mut self, f: u64, waker: u64, ready: &mut Ready<u64>) -> Result<usize, NoMemory>
        ensures ok { IfOk result (λ number. Lists self.old.condvar self.new.condvar number (record { name = f; waker = waker }) × (self.new ≡ record self.old { condvar = self.new.condvar })
            × (ready.new ≡ record ready.old { registered = ready.old.registered + 1 })) }
        ensures err { OnErr result ((self.new ≡ self.old) × (ready.new ≡ ready.old)) }
    {
        ready.register()?;
        let Ok(number) = self.core.list(NamedWaker { name: f, waker }) else {
            ready.unregister(1);
            return Err(NoMemory);
        };
        Ok(number)
    }

    /// Lists the wait that is named f where this says so, and tells its number. On an error nothing has changed.
    pub fn list_if(
        &mut self,
        listed: bool,
        f: u64,
        waker: u64,
        ready: &mut Ready<u64>,
    ) -> Result<Option<usize>, NoMemory>
        ensures ok { IfOk result (λ place. ListsAt self.old self.new place (record { name = f; waker = waker }) × (ready.new ≡ record ready.old { registered = ready.old.registered + counted_at place })) }
        ensures listed { IfOk result (λ place. is_some place ≡ listed) }
        ensures err { OnErr result ((self.new ≡ self.old) × (ready.new ≡ ready.old)) }
    {
        if !listed {
            return Ok(None);
        }
        let number = self.list(f, waker, ready)?;
        Ok(Some(number))
    }

    /// Gives the wait that is named f another waker.
    pub fn rewake_under(&mut self, number: Option<usize>, f: u64, waker: u64)
        requires { IsWaitingUnder self.old.condvar number }
        ensures { self.new ≡ rewoken_under self.old number (record { name = f; waker = waker }) }
    {
        if let Some(number) = number {
            self.core.rewake(number, NamedWaker { name: f, waker });
        }
    }

    /// Takes out a wait that waits, if it is listed.
    pub fn unlist_under(&mut self, number: Option<usize>, ready: &mut Ready<u64>)
        requires waits { IfSome number (λ n. IsSome (waker_under self.old.condvar.waiting n)) }
        requires room { counted_at number ≤ ready.old.registered }
        ensures entry { self.new ≡ left_under self.old number }
        ensures counted { ready.new ≡ record ready.old { registered = ready.old.registered - counted_at number } }
    {
        if let Some(number) = number {
            self.unlist(number, ready);
        }
    }

    // Takes out a listed wait that waits.
    fn unlist(&mut self, number: usize, ready: &mut Ready<u64>)
        requires waits { IsSome (waker_under self.old.condvar.waiting number) }
        requires room { 1 ≤ ready.old.registered }
        ensures entry { self.new ≡ record self.old { condvar = record self.old.condvar { waiting = without_wait self.old.condvar.waiting number } } }
        ensures counted { ready.new ≡ record ready.old { registered = ready.old.registered - 1 } }
    {
        let _ = self.core.unlist(number);
        ready.unregister(1);
    }

    /// Takes out a wait that was notified, if it is listed.
    pub fn forget_under(&mut self, number: Option<usize>)
        requires { IfSome number (λ n. IsSome (map.get self.old.condvar.notified n)) }
        ensures { self.new ≡ forgotten_under self.old number }
    {
        if let Some(number) = number {
            let _ = self.core.unlist(number);
        }
    }

    /// Notifies the first that waits, and tells its name, if any waits.
    pub fn notify_one(&mut self, ready: &mut Ready<u64>) -> Option<u64>
        requires quiet { self.old.condvar.wakes ≡ [] }
        requires room { length self.old.condvar.waiting ≤ ready.old.registered }
        ensures some { IfSome result (λ f. NotifiesFirst self.old f self.new ready.old ready.new) }
        ensures none { IfNone result ((self.old.condvar.waiting ≡ []) × (self.new ≡ self.old) × (ready.new ≡ ready.old)) }
    {
        self.core.notify_one();
        let first = self.core.next_wake()?;
        ready.wake(first.waker);
        Some(first.name)
    }

    /// Notifies each that waits, in their order.
    pub fn notify_all(&mut self, ready: &mut Ready<u64>)
        requires quiet { self.old.condvar.wakes ≡ [] }
        requires room { length self.old.condvar.waiting ≤ ready.old.registered }
        ensures { NotifiesEach self.old self.new ready.old ready.new }
    {
        self.core.notify_all();
        while let Some(next) = self.core.next_wake() {
            ready.wake(next.waker);
        }
    }
}
