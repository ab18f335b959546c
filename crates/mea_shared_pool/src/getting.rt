ghost use Rattle.std.specs.Prelude.{◌≡◌};

use crate::leased::Leased;
use crate::pool::Pool;
use crate::steps;
use mea_base::{NoMemory, Wake};
use mea_pool_core::{LeasePoll, LeaseWait};
use mea_wait::{End, Holds, Polled, Unpolled, Waits};
use std::marker::PhantomData;
use std::sync::{Arc, Wait};
use thiserror::Error;

/// The pool drains, and lends nothing more.
#[derive(Debug, Clone, Copy, PartialEq, Eq, Error)]
#[error("the pool drains, and lends nothing more")]
pub struct Closed;

/// A wait for a lease of a pool, which gives it, or `Closed` where the pool drained first. It must be polled to its end, or
/// ended: what it was granted then goes to the next.
pub struct Getting<H, T, W> {
    of: H,
    wait: LeaseWait,
    lends: PhantomData<(T, W)>,
}

/// The future of `Pool::get`.
pub type Get<'a, T, W> = Getting<&'a Pool<T, W>, T, W>;

/// The future of `Pool::get_owned`.
pub type OwnedGet<T, W> = Getting<Arc<Pool<T, W>>, T, W>;

impl<T: Drop, W: Wake, H: Holds<Pool<T, W>>> Getting<H, T, W> {
    // A wait that was never polled.
    pub(crate) fn of(of: H) -> Self
        ensures of { result.of ≡ of }
        ensures fresh { result.wait ≡ LeaseWait.New }
    {
        Getting {
            of,
            wait: LeaseWait::new(),
            lends: PhantomData,
        }
    }
}

impl<T: Drop, W: Wake, H: Holds<Pool<T, W>>> End for Getting<H, T, W> {
    fn end<R: Wait>(self, rt: &R) {
        let Getting { of, wait, lends: _ } = self;
        let pool = of.held();
        let made = steps::cancel(&mut *pool.core.lock(rt), wait);
        pool.wake(rt, made);
    }
}

impl<T: Drop, W: Wake, H: Holds<Pool<T, W>>> Waits<W, Result<Leased<H, T, W>, Closed>>
    for Getting<H, T, W> {
    fn poll<R: Wait>(
        self,
        rt: &R,
        waker: W,
    ) -> Result<Polled<Self, Result<Leased<H, T, W>, Closed>>, Unpolled<Self, W>> {
        let Getting {
            of,
            mut wait,
            lends,
        } = self;
        let answer = steps::poll(&mut *of.held().core.lock(rt), &mut wait, waker);
        match answer {
            Ok(LeasePoll::Got(lease)) => Ok(Polled::Ready(Ok(Leased::of(of, lease)))),
            Ok(LeasePoll::Pending) => Ok(Polled::Pending(Getting { of, wait, lends })),
            Ok(LeasePoll::Closed) => Ok(Polled::Ready(Err(Closed))),
            Err((waker, NoMemory)) => Err(Unpolled::no_memory(Getting { of, wait, lends }, waker)),
        }
    }
}
