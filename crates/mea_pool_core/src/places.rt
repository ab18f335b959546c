ghost use Rattle.std.specs.Prelude.{◌≡◌, ◌≢◌, ◌+◌, ◌-◌, ◌<◌, ◌≤◌, ◌^◌, ◌↔◌, [], ◌∷◌, length, true, false, IsTrue, IfOk, IfErr, IfSome, IfNone, OnErr};
ghost use Rattle.std.specs.FinMap as map;
ghost use Rattle.mea_pool_core.specs.Places.{Fits, PollsPlace, FindsPlace, TriesPlace, CancelsPlace, with_place, closed_places, are_drained};

use crate::lease_wait::LeaseWait;
use mea_base::NoMemory;
use mea_sem_core::{OpenTurn, SemCore};
use std::alloc::Global;
use std::marker::Model;

// One place for each resource, and the leases that wait for one: a semaphore, each of whose acquires asks for one permit.
#[derive(Drop)]
pub(crate) struct Places<W> {
    permits: SemCore<W>,
}

impl<W> Model for Places<W> {
    ghost use Rattle.mea_pool_core.specs.Places.{Places, places_code, places_of, IsPlaces};

    ghost Value = { Places W };

    ghost coded = { places_code W.code };

    ghost view = { λ p. places_of p.permits };

    ghost invariant = { λ p. IsPlaces p.permits };
}

impl<W: Drop> Places<W> {
    // Places that are all free. It takes no memory.
    pub(crate) fn new(alloc: Global, size: usize) -> Self
        ensures { result ≡ record { size = size; held = 0; waiting = []; granted = map.empty; cut = map.empty; closed = false; wakes = [] } }
    {
        Places {
            permits: SemCore::new(alloc, size),
        }
    }

    // Polls a wait: ready with a place, pending with the waker kept, or closed. It takes memory only where a new wait has
    // to wait, and where there is none the waker comes back and nothing has changed.
    pub(crate) fn poll(
        &mut self,
        wait: &mut LeaseWait,
        waker: W,
    ) -> Result<OpenTurn<W>, (W, NoMemory)>
        requires { Fits self.old wait.old }
        ensures polls { PollsPlace self.old wait.old waker result self.new wait.new }
        ensures finds { wait.old ≢ LeaseWait.Done → IfOk result (λ turn. FindsPlace self.old turn) }
        ensures err { OnErr result ((self.new ≡ self.old) × (wait.new ≡ wait.old)) }
    {
        let mut acquire = wait.acquire();
        let answer = self.permits.poll_open(&mut acquire, waker);
        *wait = LeaseWait::of(acquire);
        answer
    }

    // Takes a place, if they are open and one is free. It takes no memory.
    pub(crate) fn try_take(&mut self) -> bool
        ensures { TriesPlace self.old result self.new }
    {
        self.permits.try_acquire(1)
    }

    // Ends a wait: a place that it was granted goes to the next. It takes no memory.
    pub(crate) fn cancel(&mut self, wait: LeaseWait)
        requires { Fits self.old wait }
        ensures { CancelsPlace self.old wait self.new }
    {
        self.permits.cancel(wait.acquire());
    }

    // A lease gives its place back, which goes to the first that waits. It takes no memory.
    pub(crate) fn give_back(&mut self)
        requires { 1 ≤ self.old.held }
        ensures { self.new ≡ with_place (record self.old { held = self.old.held - 1 }) }
    {
        self.permits.give_back(1);
    }

    // Closes the places: all that wait are cut and woken. It takes no memory.
    pub(crate) fn close(&mut self)
        requires { self.old.closed ≡ false }
        ensures { self.new ≡ closed_places self.old }
    {
        self.permits.close();
    }

    // Whether they are closed. It takes no memory.
    pub(crate) fn are_closed(&self) -> bool
        ensures { result ≡ self.now.closed }
    {
        self.permits.is_closed()
    }

    // Whether they are closed and all are free. It takes no memory.
    pub(crate) fn are_drained(&self) -> bool
        ensures { result ≡ are_drained self.now }
    {
        self.permits.is_closed() && self.permits.available_permits() == self.permits.live()
    }

    // Whether the wait is one of these places. It takes no memory.
    pub(crate) fn fits(&self, wait: &LeaseWait) -> bool
        ensures { IsTrue result ↔ Fits self.now wait.now }
    {
        self.permits.poll_allowed(&wait.acquire())
    }

    // How many wakers are to be called. It takes no memory.
    pub(crate) fn wakes_ready(&self) -> usize
        ensures count { result ≡ length self.now.wakes }
        ensures bound { result < 2 ^ 63 }
    {
        self.permits.wakes_ready()
    }

    // Takes the first waker that is to be called. It takes no memory.
    pub(crate) fn next_wake(&mut self) -> Option<W>
        ensures some { IfSome result (λ waker. self.old ≡ record self.new { wakes = waker ∷ self.new.wakes }) }
        ensures none { IfNone result ((self.old.wakes ≡ []) × (self.new ≡ self.old)) }
    {
        self.permits.next_wake()
    }
}
