//! Many who wait at one object, on one thread: they are all there before any goes on.
use crate::fault::Fault;
use crate::queued::{Call, Turn};
use crate::waiter::{Bell, Waiter};
use mea::admission::{FairShare, ShareWait};
use mea::broadcast::overflow;
use mea::condvar::{Condvar, CondvarWait};
use mea::latch::{Latch, LatchWait};
use mea::mutex::Mutex;
use mea::singleflight::{FoldGroup, Group};
use mea::{Claimed, End, Kept};
use std::alloc::AllocGlobal;
use std::sync::Wait;

/// How many wait at a latch, and how many keys at an admission.
const WAITERS: u64 = 100;

/// How many callers a call that is shared has.
const CALLERS: u64 = 8;

/// A hundred await a latch, which then opens: a round is one that has waited.
pub fn latches<R: Wait + AllocGlobal>(rt: &R, rounds: u64) -> Result<(), Fault> {
    let waiter = Waiter::new(rt.alloc())?;
    for _ in 0..rounds / WAITERS {
        let latch = Latch::new(rt.alloc(), 1);
        pass(rt, &waiter, &latch)?;
    }
    Ok(())
}

fn pass<R: Wait + AllocGlobal>(rt: &R, waiter: &Waiter, latch: &Latch<Bell>) -> Result<(), Fault> {
    let mut queue = Vec::new(rt.alloc());
    let queued = await_latch(rt, waiter, latch, &mut queue);
    latch.count_down(rt);
    waiter.wait_all(rt, queue)?;
    queued
}

fn await_latch<'r, 'a, R: Wait>(
    rt: &'r R,
    waiter: &Waiter,
    latch: &'a Latch<Bell>,
    queue: &mut Vec<Kept<'r, R, LatchWait<'a, Bell>>>,
) -> Result<(), Fault> {
    for _ in 0..WAITERS {
        waiter.queue(rt, latch.wait(), queue)?;
    }
    Ok(())
}

/// A hundred keys wait for one permit, which goes from each to the next: a round is one that has had it.
pub fn admissions<R: Wait + AllocGlobal>(rt: &R, rounds: u64) -> Result<(), Fault> {
    let waiter = Waiter::new(rt.alloc())?;
    for _ in 0..rounds / WAITERS {
        let share = FairShare::new(rt.alloc(), 1);
        admit(rt, &waiter, &share)?;
    }
    Ok(())
}

fn admit<R: Wait + AllocGlobal>(
    rt: &R,
    waiter: &Waiter,
    share: &FairShare<u64, Bell>,
) -> Result<(), Fault> {
    let Some(first) = share.try_acquire(rt, 0)? else {
        return Err(Fault::Answer);
    };
    let mut queue = Vec::new(rt.alloc());
    let queued = await_permit(rt, waiter, share, &mut queue);
    first.end(rt);
    waiter.wait_all(rt, queue)?;
    queued
}

fn await_permit<'r, 'a, R: Wait>(
    rt: &'r R,
    waiter: &Waiter,
    share: &'a FairShare<u64, Bell>,
    queue: &mut Vec<Kept<'r, R, ShareWait<'a, u64, Bell>>>,
) -> Result<(), Fault> {
    for key in 1..=WAITERS {
        waiter.queue(rt, share.acquire(key)?, queue)?;
    }
    Ok(())
}

/// Eight callers share a call, which the first of them computes once all are there: a round is one caller.
pub fn flights<R: Wait + AllocGlobal>(rt: &R, rounds: u64) -> Result<(), Fault> {
    let waiter = Waiter::new(rt.alloc())?;
    let group: FoldGroup<u64, u64, Bell> = Group::new(rt.alloc());
    for round in 0..rounds / CALLERS {
        fly(rt, &waiter, &group, round)?;
    }
    Ok(())
}

fn fly<R: Wait + AllocGlobal>(
    rt: &R,
    waiter: &Waiter,
    group: &FoldGroup<u64, u64, Bell>,
    key: u64,
) -> Result<(), Fault> {
    let turn = turn_of(rt, waiter.wait(rt, group.claim(key))?)?;
    let mut queue = Vec::new(rt.alloc());
    let queued = await_value(rt, waiter, group, key, &mut queue);
    let finished = finish(rt, turn.into_inner(), key);
    waiter.wait_all(rt, queue)?;
    queued.and(finished)
}

// The turn to compute, which is the first caller's.
fn turn_of<'a, R: Wait, C: End>(
    rt: &'a R,
    claimed: Claimed<u64, C>,
) -> Result<Kept<'a, R, C>, Fault> {
    match claimed {
        Claimed::Mine(turn) => Ok(Kept::new(rt, turn)),
        Claimed::There(_) => Err(Fault::Answer),
    }
}

fn await_value<'r, 'a, R: Wait>(
    rt: &'r R,
    waiter: &Waiter,
    group: &'a FoldGroup<u64, u64, Bell>,
    key: u64,
    queue: &mut Vec<Kept<'r, R, Call<'a>>>,
) -> Result<(), Fault> {
    for _ in 1..CALLERS {
        waiter.queue(rt, group.claim(key), queue)?;
    }
    Ok(())
}

fn finish<R: Wait>(rt: &R, turn: Turn<'_>, value: u64) -> Result<(), Fault> {
    match turn.finish(rt, value) {
        Ok(_) => Ok(()),
        Err(kept) => {
            kept.end(rt);
            Err(Fault::NoMemory)
        }
    }
}

// A value with its lock, and where those wait who want it changed.
#[derive(Drop)]
struct Watched {
    mutex: Mutex<u64, Bell>,
    changed: Condvar<Bell>,
}

/// So many wait at one condition variable, which then tells all: a round is one that has waited.
pub fn notified<R: Wait + AllocGlobal>(rt: &R, rounds: u64) -> Result<(), Fault> {
    let waiter = Waiter::new(rt.alloc())?;
    let watched = Watched {
        mutex: Mutex::new(rt.alloc(), 0),
        changed: Condvar::new(rt.alloc()),
    };
    tell_all(rt, &waiter, &watched, rounds)
}

fn tell_all<R: Wait + AllocGlobal>(
    rt: &R,
    waiter: &Waiter,
    watched: &Watched,
    count: u64,
) -> Result<(), Fault> {
    let mut queue = Vec::new(rt.alloc());
    let queued = await_change(rt, waiter, watched, count, &mut queue);
    watched.changed.notify_all(rt);
    waiter.wait_all(rt, queue)?;
    queued
}

fn await_change<'r, 'a, R: Wait>(
    rt: &'r R,
    waiter: &Waiter,
    watched: &'a Watched,
    count: u64,
    queue: &mut Vec<Kept<'r, R, CondvarWait<'a, u64, Bell>>>,
) -> Result<(), Fault> {
    for _ in 0..count {
        let Some(guard) = watched.mutex.try_lock(rt) else {
            return Err(Fault::Answer);
        };
        waiter.queue(rt, watched.changed.wait(guard), queue)?;
    }
    Ok(())
}

/// So many wait for one message, and each has it: a round is one that has waited.
pub fn awaited<R: Wait + AllocGlobal>(rt: &R, rounds: u64) -> Result<(), Fault> {
    let Ok((sender, _)) = overflow::channel::<u64, Bell>(rt.alloc(), 1) else {
        return Err(Fault::NoMemory);
    };
    let done = all_hear(rt, &sender, rounds);
    sender.end(rt);
    done
}

fn all_hear<R: Wait + AllocGlobal>(
    rt: &R,
    sender: &overflow::Sender<u64, Bell>,
    count: u64,
) -> Result<(), Fault> {
    let waiter = Waiter::new(rt.alloc())?;
    let mut receivers = receivers_of(rt, sender, count)?;
    all_wait(rt, &waiter, sender, receivers.as_mut_slice())
}

/// So many receivers of what a sender sends.
pub fn receivers_of<R: Wait + AllocGlobal>(
    rt: &R,
    sender: &overflow::Sender<u64, Bell>,
    count: u64,
) -> Result<Vec<overflow::Receiver<u64, Bell>>, Fault> {
    let mut receivers = Vec::new(rt.alloc());
    for _ in 0..count {
        if receivers.push(sender.subscribe(rt)?).is_err() {
            return Err(Fault::NoMemory);
        }
    }
    Ok(receivers)
}

fn all_wait<R: Wait + AllocGlobal>(
    rt: &R,
    waiter: &Waiter,
    sender: &overflow::Sender<u64, Bell>,
    receivers: &mut [overflow::Receiver<u64, Bell>],
) -> Result<(), Fault> {
    let mut queue = Vec::new(rt.alloc());
    let queued = await_message(rt, waiter, receivers, &mut queue);
    let sent = sender.send(rt, 1);
    waiter.wait_all(rt, queue)?;
    if sent.is_err() {
        return Err(Fault::Answer);
    }
    queued
}

fn await_message<'r, 'a, R: Wait>(
    rt: &'r R,
    waiter: &Waiter,
    receivers: &'a mut [overflow::Receiver<u64, Bell>],
    queue: &mut Vec<Kept<'r, R, overflow::Recv<'a, u64, Bell>>>,
) -> Result<(), Fault> {
    for receiver in receivers.iter_mut() {
        waiter.queue(rt, receiver.recv(), queue)?;
    }
    Ok(())
}
