//! Works of one thread, in which nobody waits.
use mea::End;
use mea::mutex::Mutex;
use mea::once::OnceCell;
use mea::semaphore::Semaphore;
use mea_bench_waits::{Bell, Fault};
use std::sync;
use std::sync::Wait;

/// A permit is taken and given back.
pub fn permits(rt: &(impl Wait + AllocGlobal), rounds: u64) -> Result<(), Fault> {
    let semaphore: Semaphore<Bell> = Semaphore::new(rt.alloc(), 1);
    for _ in 0..rounds {
        match semaphore.try_acquire(rt, 1) {
            Some(permit) => permit.end(rt),
            None => return Err(Fault::Answer),
        }
    }
    Ok(())
}

/// A mutex is locked, written and let go.
pub fn locks(rt: &(impl Wait + AllocGlobal), rounds: u64) -> Result<(), Fault> {
    let mutex: Mutex<u64, Bell> = Mutex::new(rt.alloc(), 0);
    for round in 0..rounds {
        match mutex.try_lock(rt) {
            Some(mut guard) => {
                *guard = round;
                guard.end(rt);
            }
            None => return Err(Fault::Answer),
        }
    }
    Ok(())
}

/// The same with the mutex of std.
pub fn std_locks(rt: &impl Wait, rounds: u64) {
    let mutex = sync::Mutex::new(0u64);
    for round in 0..rounds {
        *mutex.lock(rt) = round;
    }
}

/// A full cell is looked at.
pub fn looks(rt: &impl AllocGlobal, rounds: u64) -> Result<(), Fault> {
    let cell: OnceCell<u64, Bell> = OnceCell::from_value(rt.alloc(), 1);
    let mut sum = 0u64;
    for _ in 0..rounds {
        match cell.get() {
            Some(value) => sum = sum.wrapping_add(*value),
            None => return Err(Fault::Answer),
        }
    }
    if sum == rounds {
        Ok(())
    } else {
        Err(Fault::Answer)
    }
}
