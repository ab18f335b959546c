ghost use Rattle.std.specs.Prelude.{◌≡◌, ◌↔◌, [], ◌∷◌, length, true, false, IsTrue, IfOk, IfErr, IfSome, IfNone, OnErr};
ghost use Rattle.mea_pool_core.specs.Shelf.{is_lent, resources_of};
ghost use Rattle.mea_pool_core.specs.Pool.{fresh, is_drained, with_lease, drained};
ghost use Rattle.mea_pool_core.specs.Calls.{Belongs, MayPoll, PollsLease, TriesLease, CancelsLease, MayPollDrain, MayEndDrain, PollsDrain, EndsDrain};

use crate::drain_wait::DrainWait;
use crate::gate::Gate;
use crate::lease::Lease;
use crate::lease_poll::LeasePoll;
use crate::lease_wait::LeaseWait;
use crate::places::Places;
use crate::shelf::Shelf;
use mea_base::{NoMemory, Poll};
use mea_sem_core::OpenTurn;
use std::alloc::Global;
use std::marker::Model;

/// A pool of resources: each is on the shelf, or lent to one lease. Leases wait for one in the order in which they were
/// first polled, until the pool drains: then none is lent any more but to those that were granted before, and who waits for
/// the end is told once all are on the shelf.
///
/// A wait is known to the pool from the poll that is pending to the one that is not. Room for its waker is reserved when it
/// begins to wait, so that putting back, cancelling and draining take no memory. No call looks at all resources or leases;
/// a drain, and the call after which it is over, pass over those that wait once.
pub struct PoolCore<R, W> {
    shelf: Shelf<R>,
    places: Places<W>,
    // Open once the pool is drained.
    gate: Gate<W>,
}

impl<R, W> Model for PoolCore<R, W> {
    ghost use Rattle.mea_pool_core.specs.Parts.{pool_of, ArePool};
    ghost use Rattle.mea_pool_core.specs.Pool.{Pool, pool_code};

    ghost Value = { Pool R W };

    ghost coded = { pool_code R.code W.code };

    ghost view = { λ p. pool_of p.shelf p.places p.gate };

    ghost invariant = { λ p. ArePool p.shelf p.places p.gate };
}

// Written out: a derived one is proved anew in each crate that hands a value of this type to a generic function.
impl<R: Drop, W: Drop> Drop for PoolCore<R, W> {
    fn drop(self) {
        let PoolCore {
            shelf: _,
            places: _,
            gate: _,
        } = self;
    }
}

impl<R, W: Drop> PoolCore<R, W> {
    /// A pool of these resources, each with its place in the list as its slot, all of them on the shelf in this order. Where
    /// there is no memory they come back.
    pub fn new(alloc: Global, resources: Vec<R>) -> Result<Self, (Vec<R>, NoMemory)>
        ensures is { IfOk result (λ p. p ≡ fresh resources.items) }
        ensures err { IfErr result (λ e. e.0 ≡ resources) }
    {
        let shelf = Shelf::new(alloc, resources)?;
        let places = Places::new(alloc, shelf.size());
        Ok(PoolCore {
            shelf,
            places,
            gate: Gate::new(alloc),
        })
    }

    /// Polls a wait for a lease: it gets the first resource of the shelf, or is pending with the waker kept until the next
    /// poll, or is closed. It takes memory only where a new wait has to wait, and where there is none the waker comes back
    /// and nothing has changed.
    pub fn poll_lease(
        &mut self,
        wait: &mut LeaseWait,
        waker: W,
    ) -> Result<LeasePoll<R>, (W, NoMemory)>
        requires { MayPoll self.old wait.old }
        ensures polls { PollsLease self.old wait.old waker result self.new wait.new }
        ensures err { OnErr result ((self.new ≡ self.old) × (wait.new ≡ wait.old)) }
    {
        match self.places.poll(wait, waker) {
            Ok(OpenTurn::Ready(_waker)) => Ok(LeasePoll::Got(self.shelf.lend())),
            Ok(OpenTurn::Pending) => Ok(LeasePoll::Pending),
            Ok(OpenTurn::Closed(_waker)) => Ok(LeasePoll::Closed),
            Err(failed) => Err(failed),
        }
    }

    /// Whether the wait is one of this pool and has not got a lease, which `poll_lease` asks for. It takes no memory.
    pub fn poll_lease_allowed(&self, wait: &LeaseWait) -> bool
        ensures { IsTrue result ↔ MayPoll self.now wait.now }
    {
        !matches!(wait, LeaseWait::Done) && self.places.fits(wait)
    }

    /// Gets a lease of the first resource of the shelf where the first poll of a wait would get it, and else none. It takes no
    /// memory.
    pub fn try_lease(&mut self) -> Option<Lease<R>>
        ensures { TriesLease self.old result self.new }
    {
        if !self.places.try_take() {
            return None;
        }
        Some(self.shelf.lend())
    }

    /// Ends a wait for a lease. One that was granted gives its place to the next. It takes no memory.
    pub fn cancel_lease(&mut self, wait: LeaseWait)
        requires { Belongs self.old wait }
        ensures { CancelsLease self.old wait self.new }
    {
        self.places.cancel(wait);
        let drained = self.places.are_drained();
        self.gate.open_if(drained);
    }

    /// Whether the wait is one of this pool, which `cancel_lease` asks for. It takes no memory.
    pub fn cancel_lease_allowed(&self, wait: &LeaseWait) -> bool
        ensures { IsTrue result ↔ Belongs self.now wait.now }
    {
        self.places.fits(wait)
    }

    /// Puts a lease back: its resource goes to the end of the shelf, and its place to the first lease that waits. It takes no
    /// memory.
    pub fn put_back(&mut self, lease: Lease<R>)
        requires { is_lent self.old.lent lease.0 ≡ true }
        ensures { self.new ≡ with_lease self.old lease }
    {
        self.shelf.put_back(lease);
        self.places.give_back();
        let drained = self.places.are_drained();
        self.gate.open_if(drained);
    }

    /// Whether the lease's slot is lent, which `put_back` asks for. It takes no memory.
    pub fn put_back_allowed(&self, lease: &Lease<R>) -> bool
        ensures { result ≡ is_lent self.now.lent lease.now.0 }
    {
        self.shelf.is_lent(lease.slot())
    }

    /// Closes the pool for good: the leases that wait leave their list and are woken, in its order. Where it is draining
    /// already nothing changes. It takes no memory.
    pub fn drain(&mut self)
        ensures { self.new ≡ drained self.old }
    {
        if self.places.are_closed() {
            return;
        }
        self.places.close();
        let drained = self.places.are_drained();
        self.gate.open_if(drained);
    }

    /// Whether the pool is draining. It takes no memory.
    pub fn is_draining(&self) -> bool
        ensures { result ≡ self.now.draining }
    {
        self.places.are_closed()
    }

    /// How many resources are on the shelf, also where a wait that was granted has not taken its lease. It takes no memory.
    pub fn idle(&self) -> usize
        ensures { result ≡ length self.now.shelf }
    {
        self.shelf.len()
    }

    /// Whether the pool is draining and each of its places is free. It takes no memory.
    pub fn is_drained(&self) -> bool
        ensures { result ≡ is_drained self.now }
    {
        self.places.are_drained()
    }

    /// Polls a wait for the end of a drain: ready exactly where the pool is drained, or pending with the waker kept until the
    /// next poll. It takes memory only where a new wait has to wait, and where there is none the waker comes back and nothing
    /// has changed.
    pub fn poll_drained(
        &mut self,
        wait: &mut DrainWait,
        waker: W,
    ) -> Result<Poll<()>, (W, NoMemory)>
        requires { MayPollDrain self.old wait.old }
        ensures polls { PollsDrain self.old wait.old waker result self.new wait.new }
        ensures err { OnErr result ((self.new ≡ self.old) × (wait.new ≡ wait.old)) }
    {
        self.gate.poll(wait, waker)
    }

    /// Whether the wait is one of this pool and was not ready yet, which `poll_drained` asks for. It takes no memory.
    pub fn poll_drained_allowed(&self, wait: &DrainWait) -> bool
        ensures { IsTrue result ↔ MayPollDrain self.now wait.now }
    {
        self.gate.may_poll(wait)
    }

    /// Ends a wait for the end of a drain: it leaves the list, and is not woken. It takes no memory.
    pub fn end_drain(&mut self, wait: DrainWait)
        requires { MayEndDrain self.old wait }
        ensures { EndsDrain self.old wait self.new }
    {
        self.gate.end(wait);
    }

    /// Whether the wait is one of this pool, which `end_drain` asks for. It takes no memory.
    pub fn end_drain_allowed(&self, wait: &DrainWait) -> bool
        ensures { IsTrue result ↔ MayEndDrain self.now wait.now }
    {
        self.gate.may_end(wait)
    }

    /// The resources of a pool that is drained, in the order of its shelf. It takes no memory.
    pub fn into_resources(self) -> Vec<R>
        requires { is_drained self ≡ true }
        ensures { result.items ≡ resources_of self.shelf }
    {
        let PoolCore {
            shelf,
            places: _,
            gate: _,
        } = self;
        shelf.into_resources()
    }

    /// How many wakers are to be called. It takes no memory.
    pub fn wakes_ready(&self) -> usize
        ensures { result ≡ length self.now.wakes }
    {
        self.places.wakes_ready() + self.gate.wakes_ready()
    }

    /// Takes the first waker that is to be called. It takes no memory.
    pub fn next_wake(&mut self) -> Option<W>
        ensures some { IfSome result (λ waker. self.old ≡ record self.new { wakes = waker ∷ self.new.wakes }) }
        ensures none { IfNone result ((self.old.wakes ≡ []) × (self.new ≡ self.old)) }
    {
        match self.places.next_wake() {
            Some(waker) => Some(waker),
            None => self.gate.next_wake(),
        }
    }
}
