//! Two threads that take one lock from each other.
use mea::End;
use mea::mutex::Mutex;
use mea_bench_waits::{Bell, Fault, Waiter};
use std::sync::Wait;
use std::thread::Threads;
use std::{sync, thread};

/// A mutex is waited for, written and let go, by two threads at once.
pub fn locks(rt: &(impl Threads + Wait + AllocGlobal + Sync), rounds: u64) -> Result<(), Fault> {
    let mutex: Mutex<u64, Bell> = Mutex::new(rt.alloc(), 0);
    let (one, two) = (Waiter::new(rt.alloc())?, Waiter::new(rt.alloc())?);
    let (first, second) = thread::join(
        rt,
        || adds(rt, &mutex, &one, rounds / 2),
        || adds(rt, &mutex, &two, rounds - rounds / 2),
    );
    first?;
    second?;
    if mutex.into_inner() == Some(rounds) {
        Ok(())
    } else {
        Err(Fault::Answer)
    }
}

// Adds one, so many times.
fn adds<R: Wait>(
    rt: &R,
    mutex: &Mutex<u64, Bell>,
    waiter: &Waiter,
    times: u64,
) -> Result<(), Fault> {
    for _ in 0..times {
        let mut guard = waiter.wait(rt, mutex.lock())?;
        *guard = guard.wrapping_add(1);
        guard.end(rt);
    }
    Ok(())
}

/// The same with the mutex of std.
pub fn std_locks(rt: &(impl Threads + Wait + Sync), rounds: u64) -> Result<(), Fault> {
    let mutex = sync::Mutex::new(0u64);
    thread::join(
        rt,
        || std_adds(rt, &mutex, rounds / 2),
        || std_adds(rt, &mutex, rounds - rounds / 2),
    );
    if mutex.into_inner() == rounds {
        Ok(())
    } else {
        Err(Fault::Answer)
    }
}

fn std_adds(rt: &impl Wait, mutex: &sync::Mutex<u64>, times: u64) {
    for _ in 0..times {
        let mut guard = mutex.lock(rt);
        *guard = guard.wrapping_add(1);
    }
}
