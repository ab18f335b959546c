ghost use Rattle.std.proofs.Common.{rules};

use crate::fault::Fault;
use crate::waiter::{Bell, Waiter};
use mea::admission::{FairSharePermit, ShareWait};
use mea::broadcast::overflow::{Recv, RecvError};
use mea::condvar::CondvarWait;
use mea::latch::LatchWait;
use mea::mutex::MutexGuard;
use mea::singleflight::{GroupClaim, GroupClaiming};
use mea::{Claimed, End, Kept, Polled, Unpolled, Waits};
use std::hash::{BuildHasherDefault, FoldHasher};
use std::sync::Wait;

type Hash = BuildHasherDefault<FoldHasher>;

/// The wait of a caller of a group.
pub(crate) type Call<'a> = GroupClaiming<'a, u64, u64, Hash, Bell>;

/// The turn to compute that it may give.
pub(crate) type Turn<'a> = GroupClaim<'a, u64, u64, Hash, Bell>;

/// A wait that may be polled whenever it is there, so that it can lie in a list.
pub(crate) trait Lasting<O>: Waits<Bell, O> {
    /// It may be polled.
    ghost lasts: { (wait : Self) → Self.can_poll wait };
}

impl<'a> Lasting<()> for LatchWait<'a, Bell> {
    ghost lasts = { Prim.search rules };
}

impl<'a> Lasting<FairSharePermit<'a, u64, Bell>> for ShareWait<'a, u64, Bell> {
    ghost lasts = { Prim.search rules };
}

impl<'a> Lasting<MutexGuard<'a, u64, Bell>> for CondvarWait<'a, u64, Bell> {
    ghost lasts = { Prim.search rules };
}

impl<'a> Lasting<Claimed<u64, Turn<'a>>> for Call<'a> {
    ghost lasts = { Prim.search rules };
}

impl<'a> Lasting<Result<u64, RecvError>> for Recv<'a, u64, Bell> {
    ghost lasts = { Prim.search rules };
}

/// What a wait gives, where a work has no further use for it.
pub(crate) trait Given: Sized {
    /// Spends it. It is an error where the work waited for something else.
    fn spend<R: Wait>(self, rt: &R) -> Result<(), Fault>;
}

impl Given for () {
    fn spend<R: Wait>(self, _rt: &R) -> Result<(), Fault> {
        Ok(())
    }
}

impl<'a> Given for FairSharePermit<'a, u64, Bell> {
    fn spend<R: Wait>(self, rt: &R) -> Result<(), Fault> {
        self.end(rt);
        Ok(())
    }
}

impl<'a> Given for MutexGuard<'a, u64, Bell> {
    fn spend<R: Wait>(self, rt: &R) -> Result<(), Fault> {
        self.end(rt);
        Ok(())
    }
}

// The value that another has computed.
impl<C: End> Given for Claimed<u64, C> {
    fn spend<R: Wait>(self, rt: &R) -> Result<(), Fault> {
        match self {
            Claimed::There(_) => Ok(()),
            Claimed::Mine(turn) => {
                turn.end(rt);
                Err(Fault::Answer)
            }
        }
    }
}

// A message that was heard.
impl Given for Result<u64, RecvError> {
    fn spend<R: Wait>(self, _rt: &R) -> Result<(), Fault> {
        match self {
            Ok(_) => Ok(()),
            Err(_) => Err(Fault::Answer),
        }
    }
}

impl Waiter {
    /// Polls a wait for the first time, and queues it. It is an error where it is ready at once.
    pub(crate) fn queue<'a, R: Wait, F: Lasting<O>, O: Given>(
        &self,
        rt: &'a R,
        wait: F,
        queue: &mut Vec<Kept<'a, R, F>>,
    ) -> Result<(), Fault> {
        let queued = self.polled(rt, wait)?;
        match queue.push(queued) {
            Ok(()) => Ok(()),
            Err(_) => Err(Fault::NoMemory),
        }
    }

    // Polls a wait for the first time, which is to be pending.
    fn polled<'a, R: Wait, F: Lasting<O>, O: Given>(
        &self,
        rt: &'a R,
        wait: F,
    ) -> Result<Kept<'a, R, F>, Fault> {
        let Ok(bell) = self.bell() else {
            wait.end(rt);
            return Err(Fault::NoMemory);
        };
        match wait.poll(rt, bell) {
            Ok(Polled::Pending(back)) => Ok(Kept::new(rt, back)),
            Ok(Polled::Ready(output)) => {
                output.spend(rt)?;
                Err(Fault::Answer)
            }
            Err(
                Unpolled {
                    future,
                    waker: _,
                    fault: _,
                },
            ) => {
                future.end(rt);
                Err(Fault::NoMemory)
            }
        }
    }

    /// Waits for each that is queued, in their order.
    pub(crate) fn wait_all<'a, R: Wait, F: Lasting<O>, O: Given>(
        &self,
        rt: &'a R,
        queue: Vec<Kept<'a, R, F>>,
    ) -> Result<(), Fault> {
        for queued in queue {
            self.wait(rt, queued.into_inner())?.spend(rt)?;
        }
        Ok(())
    }
}
