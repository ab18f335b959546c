ghost use Rattle.std.specs.Prelude.{◌≡◌};

use crate::made::Made;
use crate::mutex::Mutex;
use crate::mutex::guard::LockGuard;
use mea_base::{NoMemory, Wake};
use mea_lock_core::LockWait;
use mea_wait::{End, Holds, Polled, Unpolled, Waits};
use std::marker::PhantomData;
use std::sync::{Arc, Wait};

/// A wait for the lock of a mutex, which gives its guard. It must be polled to its end, or ended.
pub struct Locking<H, T, W> {
    of: H,
    wait: LockWait,
    locks: PhantomData<(T, W)>,
}

/// The future of `Mutex::lock`.
pub type Lock<'a, T, W> = Locking<&'a Mutex<T, W>, T, W>;

/// The future of `Mutex::lock_owned`.
pub type OwnedLock<T, W> = Locking<Arc<Mutex<T, W>>, T, W>;

impl<T: Drop, W: Wake, H: Holds<Mutex<T, W>>> Locking<H, T, W> {
    // A wait that was never polled.
    pub(super) fn of(of: H) -> Self {
        Locking {
            of,
            wait: LockWait::new(),
            locks: PhantomData,
        }
    }
}

impl<T: Drop, W: Wake, H: Holds<Mutex<T, W>>> End for Locking<H, T, W> {
    fn end<R: Wait>(self, rt: &R) {
        let Locking { of, wait, locks: _ } = self;
        let mutex = of.held();
        let made = {
            let mut state = mutex.core.lock(rt);
            let made = state.cancel(wait);
            Made::of(made, || state.next_wake())
        };
        mutex.wake(rt, made);
    }
}

impl<T: Drop, W: Wake, H: Holds<Mutex<T, W>>> Waits<W, LockGuard<H, T, W>> for Locking<H, T, W> {
    ghost hands_back = { λ given back. back ≡ given };

    fn poll<R: Wait>(
        self,
        rt: &R,
        waker: W,
    ) -> Result<Polled<Self, LockGuard<H, T, W>>, Unpolled<Self, W>> {
        let Locking {
            of,
            mut wait,
            locks,
        } = self;
        let answer = of.held().core.lock(rt).poll(&mut wait, waker);
        match answer {
            Ok(Some((value, _))) => Ok(Polled::Ready(LockGuard::of(of, value))),
            Ok(None) => Ok(Polled::Pending(Locking { of, wait, locks })),
            Err((waker, NoMemory)) => Err(Unpolled::no_memory(Locking { of, wait, locks }, waker)),
        }
    }
}
