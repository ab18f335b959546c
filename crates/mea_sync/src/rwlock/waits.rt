ghost use Rattle.std.specs.Prelude.{◌≡◌, true, false};
ghost use Rattle.mea_lock_core.specs.RwLock.{is_write};

use crate::made::Made;
use crate::rwlock::RwLock;
use crate::rwlock::guards::{ReadGuard, WriteGuard};
use mea_base::{NoMemory, Wake};
use mea_lock_core::RwWait;
use mea_wait::{End, Holds, Polled, Unpolled, Waits};
use std::marker::PhantomData;
use std::sync::{Arc, Wait};

/// A wait for a read, which gives its guard. It must be polled to its end, or ended.
pub struct Reading<H, T, W> {
    of: H,
    wait: RwWait,
    locks: PhantomData<(T, W)>,
    ghost reads: { is_write wait ≡ false },
}

/// A wait for a write, which gives its guard. It must be polled to its end, or ended.
pub struct Writing<H, T, W> {
    of: H,
    wait: RwWait,
    locks: PhantomData<(T, W)>,
    ghost writes: { is_write wait ≡ true },
}

/// The future of `RwLock::read`.
pub type Read<'a, T, W> = Reading<&'a RwLock<T, W>, T, W>;

/// The future of `RwLock::read_owned`.
pub type OwnedRead<T, W> = Reading<Arc<RwLock<T, W>>, T, W>;

/// The future of `RwLock::write`.
pub type Write<'a, T, W> = Writing<&'a RwLock<T, W>, T, W>;

/// The future of `RwLock::write_owned`.
pub type OwnedWrite<T, W> = Writing<Arc<RwLock<T, W>>, T, W>;

impl<T: Drop, W: Wake, H: Holds<RwLock<T, W>>> Reading<H, T, W> {
    // A wait that was never polled.
    pub(super) fn of(of: H) -> Self {
        Reading {
            of,
            wait: RwWait::read(),
            locks: PhantomData,
        }
    }
}

impl<T: Drop, W: Wake, H: Holds<RwLock<T, W>>> Writing<H, T, W> {
    // A wait that was never polled.
    pub(super) fn of(of: H) -> Self {
        Writing {
            of,
            wait: RwWait::write(),
            locks: PhantomData,
        }
    }
}

impl<T: Drop, W: Wake, H: Holds<RwLock<T, W>>> End for Reading<H, T, W> {
    fn end<R: Wait>(self, rt: &R) {
        let Reading { of, wait, locks: _ } = self;
        of.held().cancel(rt, wait);
    }
}

impl<T: Drop, W: Wake, H: Holds<RwLock<T, W>>> End for Writing<H, T, W> {
    fn end<R: Wait>(self, rt: &R) {
        let Writing { of, wait, locks: _ } = self;
        of.held().cancel(rt, wait);
    }
}

impl<T: Drop, W: Wake, H: Holds<RwLock<T, W>>> Waits<W, ReadGuard<H, T, W>> for Reading<H, T, W> {
    ghost hands_back = { λ given back. back ≡ given };

    fn poll<R: Wait>(
        self,
        rt: &R,
        waker: W,
    ) -> Result<Polled<Self, ReadGuard<H, T, W>>, Unpolled<Self, W>> {
        let Reading {
            of,
            mut wait,
            locks,
        } = self;
        let answer = of.held().core.lock(rt).poll_read(&mut wait, waker);
        match answer {
            Ok(Some((shared, _))) => Ok(Polled::Ready(ReadGuard::of(of, shared))),
            Ok(None) => Ok(Polled::Pending(Reading { of, wait, locks })),
            Err((waker, NoMemory)) => Err(Unpolled::no_memory(Reading { of, wait, locks }, waker)),
        }
    }
}

impl<T: Drop, W: Wake, H: Holds<RwLock<T, W>>> Waits<W, WriteGuard<H, T, W>> for Writing<H, T, W> {
    ghost hands_back = { λ given back. back ≡ given };

    fn poll<R: Wait>(
        self,
        rt: &R,
        waker: W,
    ) -> Result<Polled<Self, WriteGuard<H, T, W>>, Unpolled<Self, W>> {
        let Writing {
            of,
            mut wait,
            locks,
        } = self;
        let (answer, made) = {
            let mut state = of.held().core.lock(rt);
            let (answer, made) = state.poll_write(&mut wait, waker);
            (answer, Made::of(made, || state.next_wake()))
        };
        of.held().wake(rt, made);
        match answer {
            Ok(Some((value, _))) => Ok(Polled::Ready(WriteGuard::of(of, value))),
            Ok(None) => Ok(Polled::Pending(Writing { of, wait, locks })),
            Err((waker, NoMemory)) => Err(Unpolled::no_memory(Writing { of, wait, locks }, waker)),
        }
    }
}
