//! A semaphore that threads and tasks share: `mea::semaphore`.
ghost use Rattle.std.specs.Prelude.{◌≡◌, ◌<◌, ◌≤◌, IfSome, OnErr};
ghost use Rattle.std.specs.Arc.{arc_value};
ghost use Rattle.mea_sync.specs.Permits.{num_permits, permits_wanted, permits_to_forget};

mod acquire;
mod permit;
mod steps;

use crate::made::Made;
pub use acquire::{
    Acquire, AcquireForget, AcquireToForget, AcquireToHold, OwnedAcquire, OwnedAcquireForget,
};
use futures::task::Source;
use mea_base::{NoMemory, Overflow, Wake};
use mea_sem_core::{Acquire as Place, SemCore};
pub use permit::{OwnedSemaphorePermit, Permit, SemaphorePermit};
use std::alloc::Global;
use std::sync::{Arc, Mutex, Wait};
use thiserror::Error;

/// The semaphore was closed before the permits were granted.
#[derive(Debug, Clone, Copy, PartialEq, Eq, Error)]
#[error("the semaphore is closed")]
pub struct Closed;

/// Permits that threads and tasks share, in the order in which they first polled for them.
///
/// Each call takes the lock round the semaphore's core, makes its step there, leaves the lock, and wakes
/// those that the step has paid. It ports `mea::semaphore::Semaphore`; `close` and `is_closed` are this
/// library's own.
pub struct Semaphore<W> {
    // Which semaphore it is, for contracts: of two that were made, none shows that they have one name. It takes no bytes.
    name: Source,
    core: Mutex<SemCore<W>>,
}

// Written out: a derived one is proved anew in each crate that hands a value of this type to a generic function.
impl<W: Drop> Drop for Semaphore<W> {
    fn drop(self) {
        let Semaphore { name: _, core: _ } = self;
    }
}

impl<W: Wake> Semaphore<W> {
    /// A semaphore with these permits, all of them free. It takes no memory.
    pub fn new(alloc: Global, permits: usize) -> Self {
        Semaphore {
            name: Source::new(),
            core: Mutex::new(SemCore::new(alloc, permits)),
        }
    }

    /// The permits that were free a moment ago. It takes no memory.
    pub fn available_permits<R: Wait>(&self, rt: &R) -> usize {
        self.core.lock(rt).available_permits()
    }

    /// Takes at most `n` free permits away for ever, and tells how many. It takes no memory.
    pub fn forget<R: Wait>(&self, rt: &R, n: usize) -> usize
        ensures { result ≤ n }
    {
        self.core.lock(rt).forget(n)
    }

    /// Takes `n` permits away for ever. Those that are not free become a debt, which is paid before all who
    /// wait. It takes memory for that debt alone, and where there is none nothing has changed.
    pub fn forget_exact<R: Wait>(&self, rt: &R, n: usize) -> Result<(), NoMemory>
        ensures { OnErr result (0 < n) }
    {
        self.core.lock(rt).forget_exact(n)
    }

    /// Adds permits. It is refused where more would live than the largest number, and then nothing has
    /// changed. It takes no memory.
    pub fn release<R: Wait>(&self, rt: &R, permits: usize) -> Result<(), Overflow>
        ensures { OnErr result (0 < permits) }
    {
        let (answer, made) = {
            let mut core = self.core.lock(rt);
            let (answer, made) = steps::release(&mut *core, permits);
            (answer, Made::of(made, || core.next_wake()))
        };
        self.wake(rt, made);
        answer
    }

    /// Takes permits of an open semaphore if they are free. While anyone waits none is free, so only a demand for none
    /// passes those who wait. It takes no memory.
    pub fn try_acquire<R: Wait>(&self, rt: &R, permits: usize) -> Option<SemaphorePermit<'_, W>>
        ensures permits { IfSome result (λ permit. num_permits permit ≡ permits) }
        ensures of { IfSome result (λ permit. permit.of.now ≡ self.now) }
    {
        if self.take(rt, permits) {
            Some(Permit::of(self, permits))
        } else {
            None
        }
    }

    /// `try_acquire`, whose permits are gone for ever. It takes no memory.
    pub fn try_acquire_and_forget<R: Wait>(&self, rt: &R, permits: usize) -> bool {
        steps::take_and_lose(&mut *self.core.lock(rt), permits)
    }

    /// A wait for permits. It takes no lock before its first poll, and no memory.
    pub fn acquire(&self, permits: usize) -> Acquire<'_, W>
        ensures permits { permits_wanted result ≡ permits }
        ensures of { result.of.now ≡ self.now }
    {
        AcquireToHold::of(self, permits)
    }

    /// `acquire`, whose permits are gone for ever once they are granted. It takes no memory.
    pub fn acquire_and_forget(&self, permits: usize) -> AcquireForget<'_, W>
        ensures { permits_to_forget result ≡ permits }
    {
        AcquireToForget::of(self, permits)
    }

    /// `try_acquire`, for a permit that owns a share of the semaphore. It takes no memory.
    pub fn try_acquire_owned<R: Wait>(
        self: Arc<Self>,
        rt: &R,
        permits: usize,
    ) -> Option<OwnedSemaphorePermit<W>>
        ensures permits { IfSome result (λ permit. num_permits permit ≡ permits) }
        ensures of { IfSome result (λ permit. arc_value permit.of ≡ arc_value self) }
    {
        if self.take(rt, permits) {
            Some(Permit::of(self, permits))
        } else {
            None
        }
    }

    /// `try_acquire_and_forget`, of a share of the semaphore. It takes no memory.
    pub fn try_acquire_owned_and_forget<R: Wait>(self: Arc<Self>, rt: &R, permits: usize) -> bool {
        self.try_acquire_and_forget(rt, permits)
    }

    /// `acquire`, for a wait that owns a share of the semaphore. It takes no memory.
    pub fn acquire_owned(self: Arc<Self>, permits: usize) -> OwnedAcquire<W>
        ensures permits { permits_wanted result ≡ permits }
        ensures of { arc_value result.of ≡ arc_value self }
    {
        AcquireToHold::of(self, permits)
    }

    /// `acquire_and_forget`, for a wait that owns a share of the semaphore. It takes no memory.
    pub fn acquire_owned_and_forget(self: Arc<Self>, permits: usize) -> OwnedAcquireForget<W>
        ensures { permits_to_forget result ≡ permits }
    {
        AcquireToForget::of(self, permits)
    }

    /// Closes the semaphore for good: all who wait are woken, and each acquire that was not granted before
    /// answers `Closed`. Permits come back, are released and forgotten as before. It takes no memory.
    pub fn close<R: Wait>(&self, rt: &R) {
        let made = {
            let mut core = self.core.lock(rt);
            let made = steps::close(&mut *core);
            Made::of(made, || core.next_wake())
        };
        self.wake(rt, made);
    }

    /// Whether the semaphore was closed. It takes no memory.
    pub fn is_closed<R: Wait>(&self, rt: &R) -> bool {
        self.core.lock(rt).is_closed()
    }

    // Takes permits if they are free.
    fn take<R: Wait>(&self, rt: &R, permits: usize) -> bool {
        self.core.lock(rt).try_acquire(permits)
    }

    // Gives permits back, and wakes those whom they pay.
    fn give_back<R: Wait>(&self, rt: &R, permits: usize) {
        let made = {
            let mut core = self.core.lock(rt);
            let made = steps::give_back(&mut *core, permits);
            Made::of(made, || core.next_wake())
        };
        self.wake(rt, made);
    }

    // Ends a wait, and wakes those whom what it was paid pays.
    fn cancel<R: Wait>(&self, rt: &R, place: Place) {
        let made = {
            let mut core = self.core.lock(rt);
            let made = steps::cancel(&mut *core, place);
            Made::of(made, || core.next_wake())
        };
        self.wake(rt, made);
    }

    // Wakes those whom the step before has made ready.
    fn wake<R: Wait>(&self, rt: &R, made: Made<W>) {
        made.hand_out(|| self.core.lock(rt).next_wake());
    }
}
