//! Those of the crowd who want a permit or a lock, or wait at a condition variable.
ghost use Rattle.std.specs.Prelude.{IsSome, IfNone};

use crate::hearing::{Hears, Tells};
use crate::makes::{Makes, Member};
use crate::tasks::{Spends, share, using};
use crate::tickets::{Kind, Ticket};
use futures::task::{Context, Poll};
use futures::{Future, ready};
use mea::End;
use mea::admission::{FairShare, OwnedFairSharePermit, OwnedShareWait};
use mea::condvar::Condvar;
use mea::mutex::{Mutex, OwnedLock, OwnedMutexGuard};
use mea::rwlock::{OwnedRead, OwnedRwLockReadGuard, OwnedRwLockWriteGuard, OwnedWrite, RwLock};
use mea::semaphore::{Closed, OwnedAcquire, OwnedSemaphorePermit, Semaphore};
use mea_futures::{Bell, Holding, Kept, TryHolding, wait};
use std::alloc::{AllocError, AllocGlobal, Global};
use std::hash::{BuildHasherDefault, FoldHasher};
use std::process::Abort;
use std::sync::atomic::AtomicU64;
use std::sync::atomic::Ordering::SeqCst;
use std::sync::{Arc, Wait};

type Hasher = BuildHasherDefault<FoldHasher>;

/// What they share.
#[derive(Drop)]
pub(crate) struct Locks {
    semaphore: Arc<Semaphore<Bell>>,
    share: Arc<FairShare<u64, Bell, Hasher>>,
    sum: Arc<Mutex<u64, Bell>>,
    board: Arc<RwLock<u64, Bell>>,
    flag: Arc<Mutex<bool, Bell>>,
    condvar: Condvar<Bell>,
    worked: AtomicU64,
    added: AtomicU64,
    heard: AtomicU64,
}

impl Locks {
    /// Three permits, two for the keys, and locks that nobody has.
    pub(crate) fn new(alloc: Global) -> Result<Self, AllocError> {
        Ok(Locks {
            semaphore: Arc::new(alloc, Semaphore::new(alloc, 3))?,
            share: Arc::new(alloc, FairShare::new(alloc, 2))?,
            sum: Arc::new(alloc, Mutex::new(alloc, 0))?,
            board: Arc::new(alloc, RwLock::new(alloc, 0))?,
            flag: Arc::new(alloc, Mutex::new(alloc, false))?,
            condvar: Condvar::new(alloc),
            worked: AtomicU64::new(0),
            added: AtomicU64::new(0),
            heard: AtomicU64::new(0),
        })
    }

    /// Whether every permit is free, and nobody has a lock or waits for a permit of a key.
    pub(crate) fn are_free<R: Wait>(&self, rt: &R) -> bool {
        let board = match self.board.try_write(rt) {
            Some(guard) => {
                guard.end(rt);
                true
            }
            None => false,
        };
        board
            && self.semaphore.available_permits(rt) == 3
            && self.share.available_permits(rt) == 2
            && self.share.num_waiters(rt) == 0
            && locked(rt, &*self.flag) == Some(true)
    }

    /// How many worked with a permit, and how many heard of the flag.
    pub(crate) fn counts(&self) -> (u64, u64) {
        (self.worked.load(SeqCst), self.heard.load(SeqCst))
    }

    /// How many added one, and the sum, where nobody has its lock.
    pub(crate) fn sums<R: Wait>(&self, rt: &R) -> (u64, Option<u64>) {
        (self.added.load(SeqCst), locked(rt, &*self.sum))
    }
}

// What a mutex has, where nobody has its lock.
fn locked<R: Wait, T: Copy>(rt: &R, mutex: &Mutex<T, Bell>) -> Option<T> {
    let guard = mutex.try_lock(rt)?;
    let value = *guard;
    guard.end(rt);
    Some(value)
}

/// A task that acquires, yields with the permit, and gives it back where it drops what it kept.
#[derive(Drop)]
pub(crate) struct Acquires<'a, R: Wait> {
    acquire: TryHolding<'a, R, OwnedAcquire<Bell>, OwnedSemaphorePermit<Bell>, Closed>,
    held: Option<Kept<'a, R, OwnedSemaphorePermit<Bell>>>,
    worked: &'a AtomicU64,
}

impl<'a, R: Wait> Future for Acquires<'a, R> {
    type Output = ();

    ghost can_poll = { λ t. IfNone t.held (IsSome t.acquire.waiting.wait) };

    fn poll(&mut self, cx: &mut Context<'_>) -> Poll<()> {
        if self.held.take().is_some() {
            self.worked.fetch_add(1, SeqCst);
            return Poll::Ready(());
        }
        match ready!(self.acquire.poll(cx)) {
            Ok(Ok(permit)) => {
                self.held = Some(permit);
                cx.yield_now()
            }
            _ => Poll::Ready(()),
        }
    }
}

/// Makes those who have one.
#[derive(Drop)]
pub(crate) struct Acquiring<'a, R: Wait> {
    pub(crate) rt: &'a R,
    pub(crate) locks: &'a Locks,
}

impl<'a, R: Wait + AllocGlobal + Abort> Makes<Acquires<'a, R>> for Acquiring<'a, R> {
    fn make(&mut self, ticket: Ticket) -> Option<Acquires<'a, R>> {
        match ticket.kind {
            Kind::Acquires => {}
            _ => return None,
        }
        let rt = self.rt;
        let locks = self.locks;
        let acquire = share(rt, &locks.semaphore).acquire_owned(1);
        let waiting = wait(rt, rt.alloc(), acquire).expect(rt, "memory");
        Some(Acquires {
            acquire: waiting.try_holding(),
            held: None,
            worked: &locks.worked,
        })
    }
}

/// A task that locks, reads, yields with the guard, and writes one more than it read.
#[derive(Drop)]
pub(crate) struct Adds<'a, R: Wait> {
    lock: Holding<'a, R, OwnedLock<u64, Bell>, OwnedMutexGuard<u64, Bell>>,
    held: Option<Kept<'a, R, OwnedMutexGuard<u64, Bell>>>,
    read: u64,
    added: &'a AtomicU64,
}

impl<'a, R: Wait> Future for Adds<'a, R> {
    type Output = ();

    ghost can_poll = { λ a. IfNone a.held (IsSome a.lock.waiting.wait) };

    fn poll(&mut self, cx: &mut Context<'_>) -> Poll<()> {
        if let Some(mut held) = self.held.take() {
            let guard = held.get_mut();
            **guard = self.read.wrapping_add(1);
            self.added.fetch_add(1, SeqCst);
            return Poll::Ready(());
        }
        match ready!(self.lock.poll(cx)) {
            Ok(guard) => {
                self.read = **guard.get();
                self.held = Some(guard);
                cx.yield_now()
            }
            Err(_) => Poll::Ready(()),
        }
    }
}

/// Makes those who add.
#[derive(Drop)]
pub(crate) struct Adding<'a, R: Wait> {
    pub(crate) rt: &'a R,
    pub(crate) locks: &'a Locks,
}

impl<'a, R: Wait + AllocGlobal + Abort> Makes<Adds<'a, R>> for Adding<'a, R> {
    fn make(&mut self, ticket: Ticket) -> Option<Adds<'a, R>> {
        match ticket.kind {
            Kind::Adds => {}
            _ => return None,
        }
        let rt = self.rt;
        let locks = self.locks;
        let lock = share(rt, &locks.sum).lock_owned();
        let waiting = wait(rt, rt.alloc(), lock).expect(rt, "memory");
        Some(Adds {
            lock: waiting.holding(),
            held: None,
            read: 0,
            added: &locks.added,
        })
    }
}

/// One that has a permit of a key.
pub(crate) type Admits<'a, R> = Spends<
    'a,
    R,
    OwnedShareWait<u64, Bell, Hasher>,
    OwnedFairSharePermit<u64, Bell, Hasher>,
>;

/// Makes those who have one, for each of five keys.
#[derive(Drop)]
pub(crate) struct Admitting<'a, R: Wait> {
    pub(crate) rt: &'a R,
    pub(crate) locks: &'a Locks,
}

impl<'a, R: Wait + AllocGlobal + Abort> Makes<Admits<'a, R>> for Admitting<'a, R> {
    fn make(&mut self, ticket: Ticket) -> Option<Admits<'a, R>> {
        match ticket.kind {
            Kind::Admits => {}
            _ => return None,
        }
        let rt = self.rt;
        let locks = self.locks;
        let turn = share(rt, &locks.share).acquire_owned(ticket.nth % 5);
        Some(using(rt, turn.expect(rt, "memory")))
    }
}

/// One that reads.
pub(crate) type Reads<'a, R> = Spends<'a, R, OwnedRead<u64, Bell>, OwnedRwLockReadGuard<u64, Bell>>;

/// One that is alone.
pub(crate) type Writes<'a, R> = Spends<
    'a,
    R,
    OwnedWrite<u64, Bell>,
    OwnedRwLockWriteGuard<u64, Bell>,
>;

/// Makes those who read, and those who are alone.
#[derive(Drop)]
pub(crate) struct Boarding<'a, R: Wait> {
    pub(crate) rt: &'a R,
    pub(crate) locks: &'a Locks,
}

impl<'a, R: Wait + AllocGlobal + Abort> Makes<Member<Reads<'a, R>, Writes<'a, R>>>
    for Boarding<'a, R> {
    fn make(&mut self, ticket: Ticket) -> Option<Member<Reads<'a, R>, Writes<'a, R>>> {
        let rt = self.rt;
        let locks = self.locks;
        match ticket.kind {
            Kind::Reads => {
                let board = share(rt, &locks.board);
                Some(Member::First(using(rt, board.read_owned())))
            }
            Kind::Writes => {
                let board = share(rt, &locks.board);
                Some(Member::Other(using(rt, board.write_owned())))
            }
            _ => None,
        }
    }
}

/// Makes those who wait for the flag, and the one who sets it.
#[derive(Drop)]
pub(crate) struct Hearing<'a, R: Wait> {
    pub(crate) rt: &'a R,
    pub(crate) locks: &'a Locks,
}

impl<'a, R: Wait + AllocGlobal + Abort> Makes<Member<Hears<'a, R>, Tells<'a, R>>>
    for Hearing<'a, R> {
    fn make(&mut self, ticket: Ticket) -> Option<Member<Hears<'a, R>, Tells<'a, R>>> {
        let rt = self.rt;
        let locks = self.locks;
        match ticket.kind {
            Kind::Hears => {
                let flag = share(rt, &locks.flag);
                Some(Member::First(Hears::new(rt, &locks.condvar, flag, &locks.heard)))
            }
            Kind::Notifies => {
                let flag = share(rt, &locks.flag);
                Some(Member::Other(Tells::new(rt, &locks.condvar, flag)))
            }
            _ => None,
        }
    }
}
