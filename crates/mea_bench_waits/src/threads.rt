//! Threads at one lock.
use crate::fault::Fault;
use crate::waiter::{Bell, Waiter};
use mea::End;
use mea::condvar::Condvar;
use mea::mutex::Mutex;
use mea::rwlock::RwLock;
use std::alloc::AllocGlobal;
use std::sync::Wait;
use std::thread;
use std::thread::Threads;

/// How many threads read at a reader-writer lock.
const READERS: u64 = 3;

/// Four threads hold a reader-writer lock in turn, of which one writes.
pub fn read_locks<R: Threads + Wait + AllocGlobal + Sync>(
    rt: &R,
    rounds: u64,
) -> Result<(), Fault> {
    let lock = RwLock::new(rt.alloc(), 0);
    share(rt, &lock, rounds / (READERS + 1))
}

fn share<R: Threads + Wait + AllocGlobal + Sync>(
    rt: &R,
    lock: &RwLock<u64, Bell>,
    times: u64,
) -> Result<(), Fault> {
    thread::scope(thread::scope_env(), rt, |scope| {
        for _ in 0..READERS {
            if scope.spawn(move || reads(rt, lock, times)).is_err() {
                return Err(Fault::NoMemory);
            }
        }
        writes(rt, lock, times)
    })
}

fn reads<R: Wait + AllocGlobal>(rt: &R, lock: &RwLock<u64, Bell>, times: u64) -> Result<(), Fault> {
    let waiter = Waiter::new(rt.alloc())?;
    for _ in 0..times {
        waiter.wait(rt, lock.read())?.end(rt);
    }
    Ok(())
}

fn writes<R: Wait + AllocGlobal>(
    rt: &R,
    lock: &RwLock<u64, Bell>,
    times: u64,
) -> Result<(), Fault> {
    let waiter = Waiter::new(rt.alloc())?;
    for round in 0..times {
        let mut guard = waiter.wait(rt, lock.write())?;
        *guard = round;
        guard.end(rt);
    }
    Ok(())
}

// Whose turn it is, and where the other waits for it.
#[derive(Drop)]
struct Turns {
    turn: Mutex<u64, Bell>,
    changed: Condvar<Bell>,
}

/// Two threads take turns by a condition variable: a round is one turn.
pub fn take_turns<R: Threads + Wait + AllocGlobal + Sync>(
    rt: &R,
    rounds: u64,
) -> Result<(), Fault> {
    let turns = Turns {
        turn: Mutex::new(rt.alloc(), 0),
        changed: Condvar::new(rt.alloc()),
    };
    alternate(rt, &turns, rounds)?;
    if turns.turn.into_inner() == Some(rounds) {
        Ok(())
    } else {
        Err(Fault::Answer)
    }
}

fn alternate<R: Threads + Wait + AllocGlobal + Sync>(
    rt: &R,
    turns: &Turns,
    rounds: u64,
) -> Result<(), Fault> {
    let (first, second) = thread::join(
        rt,
        || takes(rt, turns, 0, rounds.div_ceil(2)),
        || takes(rt, turns, 1, rounds / 2),
    );
    first?;
    second
}

fn takes<R: Wait + AllocGlobal>(rt: &R, turns: &Turns, mine: u64, times: u64) -> Result<(), Fault> {
    let waiter = Waiter::new(rt.alloc())?;
    for _ in 0..times {
        let guard = waiter.wait(rt, turns.turn.lock())?;
        let waits = turns
            .changed
            .wait_while(guard, move |turn| *turn % 2 != mine);
        let mut guard = waiter.wait(rt, waits)?;
        *guard = guard.wrapping_add(1);
        guard.end(rt);
        turns.changed.notify_one(rt);
    }
    Ok(())
}
