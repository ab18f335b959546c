use crate::guards::{bell, sets, shows};
use crate::threads::{Plays, on_threads};
use mea_sync::mutex::Mutex;
use mea_sync::rwlock::RwLock;
use mea_sync::semaphore::{Closed, Semaphore};
use mea_test_support::{Bell, Count, end, found, polled_for};
use mea_wait::End;
use std::process::Abort;
use std::sync::Wait;
use std::{sync, thread};

// Acquires one permit, at most so many turns, and ends it.
fn acquire_once<R: Wait>(rt: &R, of: &Semaphore<Bell>, count: &Count, turns: u64) -> bool {
    match polled_for(rt, of.acquire(1), count, turns) {
        Some(Ok(permit)) => {
            permit.end(rt);
            true
        }
        Some(Err(Closed)) | None => false,
    }
}

// A semaphore, and whether its threads abandon waits or acquire once.
#[derive(Drop)]
struct Acquires {
    semaphore: Semaphore<Bell>,
    rung: Count,
    abandons: bool,
}

impl Plays for Acquires {
    fn plays<R: Wait>(&self, rt: &R, thread: u64) {
        if self.abandons {
            abandons(rt, &self.semaphore, &self.rung, thread);
        } else {
            acquire_once(rt, &self.semaphore, &self.rung, 1_000_000);
        }
    }
}

// A hundred threads acquire one of five permits each, and end it: then five are free.
#[test]
fn stress_test(rt: HostRuntime) {
    let place = Acquires {
        semaphore: Semaphore::new(rt.alloc(), 5),
        rung: bell(&rt),
        abandons: false,
    };
    on_threads(&rt, 100, &place);
    are_all_free(&rt, &place.semaphore);
}

fn are_all_free<R: Wait + Abort>(rt: &R, semaphore: &Semaphore<Bell>) {
    let all = semaphore.try_acquire(rt, 5);
    assert!(rt; !end(rt, semaphore.try_acquire(rt, 1)));
    assert!(rt; end(rt, all));
}

// One wait of a thread, abandoned in one of its stages or polled until it is granted.
fn wait_in_part<R: Wait>(rt: &R, of: &Semaphore<Bell>, count: &Count, stage: u64) {
    if stage == 0 {
        of.acquire(2).end(rt);
    } else if stage == 3 {
        acquire_once(rt, of, count, 1_000_000);
    } else if let Some(Ok(permit)) = polled_for(rt, of.acquire(2), count, stage) {
        permit.end(rt);
    }
}

fn abandons<R: Wait>(rt: &R, of: &Semaphore<Bell>, count: &Count, thread: u64) {
    for n in 0..250u64 {
        wait_in_part(rt, of, count, n.wrapping_add(thread) % 4);
    }
}

// A thousand waits of four threads, abandoned in each stage: then all permits are free.
#[test]
fn abandoned_waits_give_all_back(rt: HostRuntime) {
    let place = Acquires {
        semaphore: Semaphore::new(rt.alloc(), 3),
        rung: bell(&rt),
        abandons: true,
    };
    on_threads(&rt, 4, &place);
    assert!(rt; place.semaphore.available_permits(&rt) == 3);
}

// Adds one to the value, and tells whether it was let in.
fn adds<R: Wait>(rt: &R, of: &RwLock<u64, Bell>, count: &Count) -> bool {
    let Some(mut guard) = polled_for(rt, of.write(), count, 1_000_000) else {
        return false;
    };
    *guard = (*guard).wrapping_add(1);
    guard.end(rt);
    true
}

// Visits the value a hundred times, to write or to read.
fn visit_often<R: Wait>(rt: &R, of: &RwLock<u64, Bell>, count: &Count, writes: bool) {
    for _ in 0..100u64 {
        if writes {
            adds(rt, of, count);
        } else {
            end(rt, polled_for(rt, of.read(), count, 1_000_000));
        }
    }
}

// A lock: the first thread writes, and the others read.
#[derive(Drop)]
struct Visits {
    lock: RwLock<u64, Bell>,
    rung: Count,
}

impl Plays for Visits {
    fn plays<R: Wait>(&self, rt: &R, thread: u64) {
        visit_often(rt, &self.lock, &self.rung, thread == 0);
    }
}

// One writer adds one a hundred times beside eight readers.
#[test]
fn a_writer_and_eight_readers(rt: HostRuntime) {
    let place = Visits {
        lock: RwLock::new(rt.alloc(), 1u64),
        rung: bell(&rt),
    };
    on_threads(&rt, 9, &place);
    assert!(rt; shows(&rt, found(place.lock.try_read(&rt))) == Some(101));
}

// A guard is handed to another thread, which writes and ends it.
#[test]
fn a_guard_crosses_threads(rt: HostRuntime) {
    let mutex: Mutex<u64, Bell> = Mutex::new(rt.alloc(), 1u64);
    let handed = sync::Mutex::new(mutex.try_lock(&rt));
    let rt = &rt;
    thread::join(
        rt,
        || {
            sets(rt, handed.lock(rt).take(), 8);
        },
        || thread::yield_now(),
    );
    assert!(rt; !end(rt, handed.into_inner()));
    assert!(rt; shows(rt, mutex.try_lock(rt)) == Some(8));
}
