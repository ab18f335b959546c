ghost use Rattle.std.specs.Prelude.{◌≡◌, None, IfNone};

use crate::polls::{Answer, granted};
use futures::task::{Context, Poll};
use futures::{Future, ready};
use mea_futures::Bell;
use mea_sync::semaphore::{Closed, OwnedAcquire, Semaphore};
use std::alloc::AllocGlobal;
use std::process::Abort;
use std::sync::Arc;
use std::sync::atomic::AtomicU64;
use std::sync::atomic::Ordering::SeqCst;

/// What jobs did.
#[derive(Drop)]
pub struct Seen {
    // Those that hold a permit now.
    now: AtomicU64,
    // The most that did at a time.
    most: AtomicU64,
    // Those that are done.
    done: AtomicU64,
    // All polls.
    polls: AtomicU64,
}

impl Seen {
    /// Nothing yet.
    pub fn new() -> Self {
        Seen {
            now: AtomicU64::new(0),
            most: AtomicU64::new(0),
            done: AtomicU64::new(0),
            polls: AtomicU64::new(0),
        }
    }

    /// How many are done, the most that held a permit at a time, and all polls.
    pub fn counts(&self) -> (u64, u64, u64) {
        (
            self.done.load(SeqCst),
            self.most.load(SeqCst),
            self.polls.load(SeqCst),
        )
    }

    fn enter(&self) {
        let now = self.now.fetch_add(1, SeqCst).wrapping_add(1);
        self.most.fetch_max(now, SeqCst);
    }

    fn leave(&self) {
        self.now.fetch_sub(1, SeqCst);
        self.done.fetch_add(1, SeqCst);
    }
}

/// A semaphore with so many permits.
pub fn shared<R: AllocGlobal + Abort>(rt: &R, permits: usize) -> Arc<Semaphore<Bell>> {
    Arc::new(rt.alloc(), Semaphore::new(rt.alloc(), permits)).expect(rt, "memory")
}

/// A wait for so many permits, with no bell yet.
pub fn acquire<R: Abort>(
    rt: &R,
    semaphore: &Arc<Semaphore<Bell>>,
    permits: usize,
) -> OwnedAcquire<Bell> {
    Arc::try_clone(semaphore)
        .expect(rt, "memory")
        .acquire_owned(permits)
}

/// A task: it acquires, yields with the permit, and gives it back where it drops what it kept.
#[derive(Drop)]
pub struct Job<'a, A, P> {
    seen: &'a Seen,
    acquire: A,
    held: Option<P>,
}

impl<'a, A, P> Job<'a, A, P> {
    /// One that was never polled, with a wait for its permit.
    pub fn new(seen: &'a Seen, acquire: A) -> Self
        ensures { (result.held ≡ None) × (result.acquire ≡ acquire) }
    {
        Job {
            seen,
            acquire,
            held: None,
        }
    }
}

impl<'a, P: Drop, A: Future<Output = Answer<P, Closed>>> Future for Job<'a, A, P> {
    type Output = ();

    ghost can_poll = { λ j. IfNone j.held (A.can_poll j.acquire) };

    fn poll(&mut self, cx: &mut Context<'_>) -> Poll<()> {
        self.seen.polls.fetch_add(1, SeqCst);
        if let Some(held) = self.held.take() {
            self.seen.leave();
            drop(held);
            return Poll::Ready(());
        }
        match granted(ready!(self.acquire.poll(cx))) {
            Some(permit) => {
                self.seen.enter();
                self.held = Some(permit);
                cx.yield_now()
            }
            None => Poll::Ready(()),
        }
    }
}
