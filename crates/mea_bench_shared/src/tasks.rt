//! Two tasks of one pool: a permit that they hand to each other, and messages from one to the other. Both stand here for the
//! kit's tokio too.
ghost use Rattle.std.specs.Prelude.{IfOk, IsSome};

use futures::executor::LocalPool;
use futures::task::{Context, Poll};
use futures::{Future, ready};
use mea::semaphore::Semaphore;
use mea_bench_waits::Fault;
use mea_futures::{Acquiring, Bell, wait};
use std::alloc::{AllocGlobal, Global};
use std::random::RandomSource;
use std::sync::atomic::AtomicU64;
use std::sync::atomic::Ordering::SeqCst;
use std::sync::{Arc, Wait};
use tokio::sync;

// A wait for the permit, that was never polled.
fn acquiring<'a, R: Wait>(
    rt: &'a R,
    alloc: Global,
    semaphore: &Arc<Semaphore<Bell>>,
) -> Result<Acquiring<'a, R>, Fault>
    ensures { IfOk result (λ acquire. IsSome acquire.waiting.wait) }
{
    let acquire = Arc::try_clone(semaphore)?.acquire_owned(1);
    match wait(rt, alloc, acquire) {
        Ok(waiting) => Ok(waiting.try_holding()),
        Err(_) => Err(Fault::NoMemory),
    }
}

// A task that waits for the permit, hands it on as soon as it has it, and waits again, so many times.
#[derive(Drop)]
struct Hands<'a, R: Wait> {
    semaphore: &'a Arc<Semaphore<Bell>>,
    acquire: Acquiring<'a, R>,
    left: u64,
    done: &'a AtomicU64,
}

impl<'a, R: Wait> Future for Hands<'a, R> {
    type Output = ();

    ghost can_poll = { λ h. IsSome h.acquire.waiting.wait };

    fn poll(&mut self, cx: &mut Context<'_>) -> Poll<()> {
        let Ok(Ok(permit)) = ready!(self.acquire.poll(cx)) else {
            return Poll::Ready(());
        };
        drop(permit);
        self.left = self.left.saturating_sub(1);
        if self.left == 0 {
            self.done.fetch_add(1, SeqCst);
            return Poll::Ready(());
        }
        let Ok(share) = Arc::try_clone(self.semaphore) else {
            return Poll::Ready(());
        };
        self.acquire.restart(share.acquire_owned(1));
        match self.acquire.poll(cx) {
            Poll::Pending => Poll::Pending,
            Poll::Ready(_) => Poll::Ready(()),
        }
    }
}

/// A permit is handed on between two tasks of one pool.
pub fn permits<R: Wait + RandomSource + AllocGlobal>(rt: &R, rounds: u64) -> Result<(), Fault> {
    let semaphore = Arc::new(rt.alloc(), Semaphore::new(rt.alloc(), 0)).map_err(
        |_| Fault::NoMemory,
    )?;
    let done = AtomicU64::new(0);
    hand_over(rt, &semaphore, &done, rounds.div_ceil(2))?;
    if done.load(SeqCst) == 2 {
        Ok(())
    } else {
        Err(Fault::Answer)
    }
}

// Runs both tasks to their ends.
fn hand_over<'a, R: Wait + RandomSource + AllocGlobal + 'a>(
    rt: &'a R,
    semaphore: &'a Arc<Semaphore<Bell>>,
    done: &'a AtomicU64,
    times: u64,
) -> Result<(), Fault> {
    let mut pool = LocalPool::new(rt)?;
    let spawner = pool.spawner()?;
    for _ in 0..2u32 {
        let task = Hands {
            semaphore,
            acquire: acquiring(rt, rt.alloc(), semaphore)?,
            left: times,
            done,
        };
        if spawner.spawn(task).is_err() {
            return Err(Fault::NoMemory);
        }
    }
    // Both queue before there is a permit.
    pool.run_until_stalled(2);
    if semaphore.release(rt, 1).is_err() {
        return Err(Fault::Answer);
    }
    pool.run(rt);
    Ok(())
}

// The same task with the semaphore of tokio.
#[derive(Drop)]
struct TokioHands<'a> {
    semaphore: &'a Arc<sync::Semaphore>,
    acquire: sync::AcquireOwned,
    left: u64,
    done: &'a AtomicU64,
}

impl<'a> Future for TokioHands<'a> {
    ghost use Rattle.tokio.specs.Locks.{CanAcquire};

    type Output = ();

    ghost can_poll = { λ h. CanAcquire h.acquire };

    fn poll(&mut self, cx: &mut Context<'_>) -> Poll<()> {
        let Ok(permit) = ready!(self.acquire.poll(cx)) else {
            return Poll::Ready(());
        };
        drop(permit);
        self.left = self.left.saturating_sub(1);
        if self.left == 0 {
            self.done.fetch_add(1, SeqCst);
            return Poll::Ready(());
        }
        let Ok(share) = Arc::try_clone(self.semaphore) else {
            return Poll::Ready(());
        };
        self.acquire = sync::Semaphore::acquire_owned(share);
        match self.acquire.poll(cx) {
            Poll::Pending => Poll::Pending,
            Poll::Ready(_) => Poll::Ready(()),
        }
    }
}

/// The same with the semaphore of tokio.
pub fn tokio_permits<R: Wait + RandomSource + AllocGlobal>(
    rt: &R,
    rounds: u64,
) -> Result<(), Fault> {
    let semaphore = Arc::new(rt.alloc(), sync::Semaphore::new(rt.alloc(), 0)?).map_err(
        |_| Fault::NoMemory,
    )?;
    let done = AtomicU64::new(0);
    let mut pool = LocalPool::new(rt)?;
    let spawner = pool.spawner()?;
    for _ in 0..2u32 {
        let task = TokioHands {
            semaphore: &semaphore,
            acquire: sync::Semaphore::acquire_owned(Arc::try_clone(&semaphore)?),
            left: rounds.div_ceil(2),
            done: &done,
        };
        if spawner.spawn(task).is_err() {
            return Err(Fault::NoMemory);
        }
    }
    pool.run_until_stalled(2);
    semaphore.add_permits(1);
    pool.run(rt);
    if done.load(SeqCst) == 2 {
        Ok(())
    } else {
        Err(Fault::Answer)
    }
}
