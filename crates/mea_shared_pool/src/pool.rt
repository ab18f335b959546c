ghost use Rattle.std.specs.Prelude.{◌≡◌, IfErr};
ghost use Rattle.std.specs.Arc.{arc_value};
ghost use Rattle.mea_pool_core.specs.declared.lease_wait.LeaseWait.{LeaseWait};
ghost use Rattle.mea_pool_core.specs.declared.drain_wait.DrainWait.{DrainWait};

use crate::draining::{Drained, Draining, OwnedDrained};
use crate::getting::{Get, Getting, OwnedGet};
use crate::leased::{Lease, Leased, OwnedLease};
use crate::steps;
use mea_base::{NoMemory, Wake};
use mea_pool_core::PoolCore;
use mea_wait::hand_out;
use std::alloc::Global;
use std::sync::{Arc, Mutex, Wait};

/// Resources that threads and tasks share: each is on the shelf, or lent to one lease. Leases go to those who ask in the order
/// in which they were first polled, until the pool drains.
///
/// Each call takes the lock round the pool's core, makes its step there, leaves the lock, and wakes those whom the step has
/// granted a lease or told the end. A resource moves into its lease and back, so a lease may be held between polls and sent to
/// another thread; a large resource is best boxed.
pub struct Pool<T, W> {
    pub(crate) core: Mutex<PoolCore<T, W>>,
}

// Written out: a derived one is proved anew in each crate that hands a value of this type to a generic function.
impl<T: Drop, W: Drop> Drop for Pool<T, W> {
    fn drop(self) {
        let Pool { core: _ } = self;
    }
}

impl<T: Drop, W: Wake> Pool<T, W> {
    /// A pool of these resources, each with its place in the list as its slot, all of them on the shelf in this order. Where
    /// there is no memory they come back.
    pub fn new(alloc: Global, resources: Vec<T>) -> Result<Self, (Vec<T>, NoMemory)>
        ensures { IfErr result (λ e. e.0 ≡ resources) }
    {
        let core = PoolCore::new(alloc, resources)?;
        Ok(Pool {
            core: Mutex::new(core),
        })
    }

    /// A wait for a lease. It takes no lock before its first poll, and no memory.
    pub fn get(&self) -> Get<'_, T, W>
        ensures of { result.of.now ≡ self.now }
        ensures fresh { result.wait ≡ LeaseWait.New }
    {
        Getting::of(self)
    }

    /// `get`, for a wait that owns a share of the pool. It takes no memory.
    pub fn get_owned(self: Arc<Self>) -> OwnedGet<T, W>
        ensures of { arc_value result.of ≡ arc_value self }
        ensures fresh { result.wait ≡ LeaseWait.New }
    {
        Getting::of(self)
    }

    /// A lease, if a place is free and the pool does not drain. It passes nobody: while anyone waits no place is free. It takes
    /// no memory.
    pub fn try_get<R: Wait>(&self, rt: &R) -> Option<Lease<'_, T, W>> {
        let lease = self.lend(rt)?;
        Some(Leased::of(self, lease))
    }

    /// `try_get`, for a lease that owns a share of the pool. It takes no memory.
    pub fn try_get_owned<R: Wait>(self: Arc<Self>, rt: &R) -> Option<OwnedLease<T, W>> {
        let lease = self.lend(rt)?;
        Some(Leased::of(self, lease))
    }

    /// Drains the pool for good: who waits for a lease is woken and answered `Closed`, as is each that asks from then on; one
    /// that was granted a lease before still gets it, and leases come back as before. It takes no memory.
    pub fn drain<R: Wait>(&self, rt: &R) {
        let made = steps::drain(&mut *self.core.lock(rt));
        self.wake(rt, made);
    }

    /// A wait until the pool is drained: until it drains, and each resource is on the shelf. It takes no memory.
    pub fn drained(&self) -> Drained<'_, T, W>
        ensures of { result.of.now ≡ self.now }
        ensures fresh { result.wait ≡ DrainWait.New }
    {
        Draining::of(self)
    }

    /// `drained`, for a wait that owns a share of the pool. It takes no memory.
    pub fn drained_owned(self: Arc<Self>) -> OwnedDrained<T, W>
        ensures of { arc_value result.of ≡ arc_value self }
        ensures fresh { result.wait ≡ DrainWait.New }
    {
        Draining::of(self)
    }

    /// Whether the pool drains. It takes no memory.
    pub fn is_draining<R: Wait>(&self, rt: &R) -> bool {
        self.core.lock(rt).is_draining()
    }

    /// Whether the pool drains and each resource is on the shelf, with none granted; then it stays so. It takes no memory.
    pub fn is_drained<R: Wait>(&self, rt: &R) -> bool {
        self.core.lock(rt).is_drained()
    }

    /// How many resources were on the shelf a moment ago, also those for which a wait was granted that has not taken its lease.
    /// It takes no memory.
    pub fn idle<R: Wait>(&self, rt: &R) -> usize {
        self.core.lock(rt).idle()
    }

    /// The resources of a pool that is drained, in the order of its shelf; one that is not comes back as it was. It takes no
    /// memory.
    pub fn into_resources(self) -> Result<Vec<T>, Self> {
        let Pool { core } = self;
        let core = core.into_inner();
        if core.is_drained() {
            Ok(core.into_resources())
        } else {
            Err(Pool {
                core: Mutex::new(core),
            })
        }
    }

    // Puts what was lent back, and wakes who has a lease by it.
    pub(crate) fn put_back<R: Wait>(&self, rt: &R, lease: mea_pool_core::Lease<T>) {
        let made = steps::put_back(&mut *self.core.lock(rt), lease);
        self.wake(rt, made);
    }

    // Wakes as many as the step before has made ready.
    pub(crate) fn wake<R: Wait>(&self, rt: &R, made: usize) {
        hand_out(made, || self.core.lock(rt).next_wake());
    }

    // What is lent to a new lease, if a place is free.
    fn lend<R: Wait>(&self, rt: &R) -> Option<mea_pool_core::Lease<T>> {
        self.core.lock(rt).try_lease()
    }
}
