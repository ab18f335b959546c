ghost use Rattle.std.specs.Prelude.{◌≡◌};

use crate::pool::Pool;
use crate::steps;
use mea_base::{NoMemory, Poll, Wake};
use mea_pool_core::DrainWait;
use mea_wait::{End, Holds, Polled, Unpolled, Waits};
use std::marker::PhantomData;
use std::sync::{Arc, Wait};

/// A wait until a pool is drained. It must be polled to its end, or ended.
pub struct Draining<H, T, W> {
    of: H,
    wait: DrainWait,
    ends: PhantomData<(T, W)>,
}

/// The future of `Pool::drained`.
pub type Drained<'a, T, W> = Draining<&'a Pool<T, W>, T, W>;

/// The future of `Pool::drained_owned`.
pub type OwnedDrained<T, W> = Draining<Arc<Pool<T, W>>, T, W>;

impl<T: Drop, W: Wake, H: Holds<Pool<T, W>>> Draining<H, T, W> {
    // A wait that was never polled.
    pub(crate) fn of(of: H) -> Self
        ensures of { result.of ≡ of }
        ensures fresh { result.wait ≡ DrainWait.New }
    {
        Draining {
            of,
            wait: DrainWait::new(),
            ends: PhantomData,
        }
    }
}

impl<T: Drop, W: Wake, H: Holds<Pool<T, W>>> End for Draining<H, T, W> {
    fn end<R: Wait>(self, rt: &R) {
        let Draining { of, wait, ends: _ } = self;
        steps::end_drain(&mut *of.held().core.lock(rt), wait);
    }
}

impl<T: Drop, W: Wake, H: Holds<Pool<T, W>>> Waits<W, ()> for Draining<H, T, W> {
    fn poll<R: Wait>(self, rt: &R, waker: W) -> Result<Polled<Self, ()>, Unpolled<Self, W>> {
        let Draining { of, mut wait, ends } = self;
        let answer = steps::poll_drained(&mut *of.held().core.lock(rt), &mut wait, waker);
        match answer {
            Ok(Poll::Ready(())) => Ok(Polled::Ready(())),
            Ok(Poll::Pending) => Ok(Polled::Pending(Draining { of, wait, ends })),
            Err((waker, NoMemory)) => Err(Unpolled::no_memory(Draining { of, wait, ends }, waker)),
        }
    }
}
