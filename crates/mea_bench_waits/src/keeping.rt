//! A map whose values are computed once, and a wait that is given up.
use crate::fault::Fault;
use crate::waiter::{Bell, Waiter};
use futures::future::ready;
use mea::once::{FoldOnceMap, OnceMap};
use mea::semaphore::Semaphore;
use mea::{AtOnce, End};
use mea_futures::Blocker;
use std::alloc::AllocGlobal;
use std::io;
use std::random::RandomSource;
use std::sync::Wait;

/// How many keys a map has.
const KEYS: u64 = 100;

/// How many calls read it.
const READS: u64 = 1000;

/// Maps are filled by a hundred keys and read by a thousand calls: a round is one call, that fills or that reads.
pub fn maps<R: Wait + AllocGlobal>(rt: &R, rounds: u64) -> Result<(), Fault> {
    let waiter = Waiter::new(rt.alloc())?;
    for _ in 0..rounds / (KEYS + READS) {
        let map = OnceMap::new(rt.alloc());
        fill(rt, &waiter, &map)?;
        read(rt, &map)?;
    }
    Ok(())
}

fn fill<R: Wait>(rt: &R, waiter: &Waiter, map: &FoldOnceMap<u64, u64, Bell>) -> Result<(), Fault> {
    for key in 0..KEYS {
        waiter.wait(rt, map.compute(key, AtOnce::new(move || key)))?;
    }
    Ok(())
}

fn read<R: Wait>(rt: &R, map: &FoldOnceMap<u64, u64, Bell>) -> Result<(), Fault> {
    for call in 0..READS {
        if map.get(rt, &(call % KEYS))? != Some(call % KEYS) {
            return Err(Fault::Answer);
        }
    }
    Ok(())
}

/// A wait for a permit that does not come is given up for what is ready beside it, and made anew.
pub fn given_up<R: Wait + RandomSource + AllocGlobal>(rt: &R, rounds: u64) -> Result<(), Fault> {
    let semaphore = Semaphore::new(rt.alloc(), 0);
    let Ok(mut blocker) = Blocker::new(rt) else {
        return Err(Fault::NoMemory);
    };
    for _ in 0..rounds {
        unpaid(
            rt,
            blocker.block_before(rt, semaphore.acquire(1), ready(())),
        )?;
    }
    Ok(())
}

// That a wait was given up: an error where it was not.
fn unpaid<R: Wait, P: End, E: Drop>(
    rt: &R,
    answer: io::Result<Option<Result<P, E>>>,
) -> Result<(), Fault> {
    match answer {
        Ok(None) => Ok(()),
        Ok(Some(Ok(permit))) => {
            permit.end(rt);
            Err(Fault::Answer)
        }
        Ok(Some(Err(_))) => Err(Fault::Answer),
        Err(_) => Err(Fault::NoMemory),
    }
}
