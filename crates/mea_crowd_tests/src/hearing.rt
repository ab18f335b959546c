//! Those of the crowd who wait at a condition variable until a flag is set, and the one who sets it.
ghost use Rattle.std.specs.Prelude.{◌≡◌, None, IsSome, MatchOption};

use futures::task::{Context, Poll};
use futures::{Future, ready};
use mea::condvar::{Condvar, CondvarWaitOwned};
use mea::mutex::{Mutex, OwnedLock, OwnedMutexGuard};
use mea_futures::{Bell, Holding, wait};
use std::alloc::AllocGlobal;
use std::process::Abort;
use std::sync::atomic::AtomicU64;
use std::sync::atomic::Ordering::SeqCst;
use std::sync::{Arc, Wait};

// A wait for the lock of the flag.
type Locks<'a, R> = Holding<'a, R, OwnedLock<bool, Bell>, OwnedMutexGuard<bool, Bell>>;

/// A task that waits until the flag is set, and then tells the next: only one is notified at a time.
#[derive(Drop)]
pub(crate) struct Hears<'a, R: Wait> {
    rt: &'a R,
    condvar: &'a Condvar<Bell>,
    lock: Locks<'a, R>,
    told: Option<Holding<'a, R, CondvarWaitOwned<'a, bool, Bell>, OwnedMutexGuard<bool, Bell>>>,
    heard: &'a AtomicU64,
}

impl<'a, R: Wait + AllocGlobal + Abort> Hears<'a, R> {
    /// One that was never polled.
    pub(crate) fn new(
        rt: &'a R,
        condvar: &'a Condvar<Bell>,
        flag: Arc<Mutex<bool, Bell>>,
        heard: &'a AtomicU64,
    ) -> Self
        ensures { (result.told ≡ None) × IsSome result.lock.waiting.wait }
    {
        let waiting = wait(rt, rt.alloc(), flag.lock_owned()).expect(rt, "memory");
        Hears {
            rt,
            condvar,
            lock: waiting.holding(),
            told: None,
            heard,
        }
    }
}

impl<'a, R: Wait + AllocGlobal + Abort> Future for Hears<'a, R> {
    type Output = ();

    ghost can_poll = { λ h. MatchOption h.told (IsSome h.lock.waiting.wait) (λ told. IsSome told.waiting.wait) };

    fn poll(&mut self, cx: &mut Context<'_>) -> Poll<()> {
        let answer = match &mut self.told {
            Some(told) => ready!(told.poll(cx)),
            None => ready!(self.lock.poll(cx)),
        };
        let Ok(guard) = answer else {
            return Poll::Ready(());
        };
        if **guard.get() {
            drop(guard);
            self.heard.fetch_add(1, SeqCst);
            self.condvar.notify_one(self.rt);
            return Poll::Ready(());
        }
        let waits = self.condvar.wait_owned(guard.into_inner());
        let waiting = wait(self.rt, self.rt.alloc(), waits).expect(self.rt, "memory");
        self.told = Some(waiting.holding());
        cx.yield_now()
    }
}

/// A task that sets the flag, and tells the first that waits.
#[derive(Drop)]
pub(crate) struct Tells<'a, R: Wait> {
    rt: &'a R,
    condvar: &'a Condvar<Bell>,
    lock: Locks<'a, R>,
}

impl<'a, R: Wait + AllocGlobal + Abort> Tells<'a, R> {
    /// One that was never polled.
    pub(crate) fn new(rt: &'a R, condvar: &'a Condvar<Bell>, flag: Arc<Mutex<bool, Bell>>) -> Self
        ensures { IsSome result.lock.waiting.wait }
    {
        let waiting = wait(rt, rt.alloc(), flag.lock_owned()).expect(rt, "memory");
        Tells {
            rt,
            condvar,
            lock: waiting.holding(),
        }
    }
}

impl<'a, R: Wait> Future for Tells<'a, R> {
    type Output = ();

    ghost can_poll = { λ t. IsSome t.lock.waiting.wait };

    fn poll(&mut self, cx: &mut Context<'_>) -> Poll<()> {
        if let Ok(mut guard) = ready!(self.lock.poll(cx)) {
            let flag = guard.get_mut();
            **flag = true;
            drop(guard);
            self.condvar.notify_one(self.rt);
        }
        Poll::Ready(())
    }
}
