//! Permits of a semaphore, for a thread that waits for them by an executor of its own.
ghost use Rattle.std.specs.Prelude.{◌≡◌, Ok, IfOk, MatchOption, IsSomeAnd};
ghost use Rattle.mea_sync.specs.Permits.{num_permits};

use crate::bell::Bell;
use crate::holding::TryHolding;
use crate::waiting::wait;
use futures::Future;
use futures::executor::block_on;
use futures::future::{Either, select};
use mea_sync::semaphore::{Closed, OwnedAcquire, OwnedSemaphorePermit, Semaphore, SemaphorePermit};
use mea_wait::{End, Kept, PollFault, Waits};
use std::alloc::AllocGlobal;
use std::io;
use std::random::RandomSource;
use std::sync::Wait;
use thiserror::Error;

/// A wait for permits of a semaphore that is shared, as a task holds it: it owns its share, and what it gives may be dropped.
pub type Acquiring<'a, R> = TryHolding<
    'a,
    R,
    OwnedAcquire<Bell>,
    OwnedSemaphorePermit<Bell>,
    Closed,
>;

/// Why permits were not taken.
#[derive(Debug, Clone, Copy, PartialEq, Eq, Error)]
pub enum TakeError {
    /// The semaphore was closed.
    #[error("the semaphore is closed")]
    Closed,
    /// A poll was refused.
    #[error("{0}")]
    Refused(PollFault),
}

impl<'a, R, F: Waits<Bell, Result<P, E>>, P: End, E> TryHolding<'a, R, F, P, E>
where
    R: Wait + RandomSource + AllocGlobal,
{
    /// Waits on this thread, as `block_on` of the kit does.
    pub fn block(self) -> io::Result<Result<Result<Kept<'a, R, P>, E>, PollFault>>
        requires { IsSomeAnd self.waiting.wait F.can_poll }
        ensures { IfOk result (λ r. IfOk r (λ o. IfOk o (λ k. IsSomeAnd self.entry.waiting.wait (λ f. F.gives f (Ok k.value))))) }
    {
        block_on(self.rt, self)
    }

    /// `block`, until the deadline is ready: then the wait is abandoned, and there is no output.
    pub fn block_before<D: Future<Output = ()>>(
        self,
        deadline: D,
    ) -> io::Result<Option<Result<Result<Kept<'a, R, P>, E>, PollFault>>>
        requires wait { IsSomeAnd self.waiting.wait F.can_poll }
        requires deadline { D.can_poll deadline }
        ensures { IfOk result (λ s. MatchOption s (D.gives deadline tt) (λ r. IfOk r (λ o. IfOk o (λ k. IsSomeAnd self.entry.waiting.wait (λ f. F.gives f (Ok k.value)))))) }
    {
        match block_on(self.rt, select(self, deadline))? {
            Either::Left((answer, _deadline)) => Ok(Some(answer)),
            // The wait is dropped here, and so ended.
            Either::Right(((), _wait)) => Ok(None),
        }
    }
}

/// Waits for permits on this thread. They go back where they are dropped.
///
/// The clause says how many they are. That the wait ends, no clause says: it does where the permits come, or a close.
pub fn take<'a, R>(
    rt: &'a R,
    of: &'a Semaphore<Bell>,
    permits: usize,
) -> io::Result<Result<Kept<'a, R, SemaphorePermit<'a, Bell>>, TakeError>>
where
    R: Wait + RandomSource + AllocGlobal,
    ensures { IfOk result (λ r. IfOk r (λ kept. num_permits kept.value ≡ permits)) }
{
    let wanted = of.acquire(permits);
    match wait(rt, rt.alloc(), wanted) {
        Ok(acquire) => match acquire.try_holding().block()? {
            Ok(Ok(kept)) => Ok(Ok(kept)),
            Ok(Err(Closed)) => Ok(Err(TakeError::Closed)),
            Err(fault) => Ok(Err(TakeError::Refused(fault))),
        },
        Err(_) => Ok(Err(TakeError::Refused(PollFault::NoMemory))),
    }
}

/// Waits for permits until the deadline is ready, and then abandons the wait: what it was paid goes to the next that waits.
pub fn take_before<'a, R, D>(
    rt: &'a R,
    of: &'a Semaphore<Bell>,
    permits: usize,
    deadline: D,
) -> io::Result<Result<Option<Kept<'a, R, SemaphorePermit<'a, Bell>>>, TakeError>>
where
    R: Wait + RandomSource + AllocGlobal,
    D: Future<Output = ()>,
    requires { D.can_poll deadline }
    ensures { IfOk result (λ r. IfOk r (λ o. MatchOption o (D.gives deadline tt) (λ kept. num_permits kept.value ≡ permits))) }
{
    match wait(rt, rt.alloc(), of.acquire(permits)) {
        Ok(acquire) => match acquire.try_holding().block_before(deadline)? {
            Some(Ok(Ok(kept))) => Ok(Ok(Some(kept))),
            Some(Ok(Err(Closed))) => Ok(Err(TakeError::Closed)),
            Some(Err(fault)) => Ok(Err(TakeError::Refused(fault))),
            None => Ok(Ok(None)),
        },
        Err(_) => Ok(Err(TakeError::Refused(PollFault::NoMemory))),
    }
}
