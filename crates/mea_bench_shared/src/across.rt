//! Messages through oneshot channels from one thread to another: the one that receives makes each channel, and hands its
//! sender over.
use crate::handoff::Handoff;
use mea::Wake;
use mea::oneshot::{Plain, Sender, channel};
use mea_base::Poll;
use mea_bench_waits::{Bell, Fault, Waiter};
use mea_chan_core::OneshotCore;
use std::sync::{Arc, Mutex, Wait};
use std::thread;
use std::thread::Threads;

type Lockless = Sender<Plain<u64>, Bell>;

type Locked = Arc<Mutex<OneshotCore<u64, Bell>>>;

/// A message goes through a channel without a lock.
pub fn shots<R: Threads + Wait + AllocGlobal + Sync>(rt: &R, rounds: u64) -> Result<(), Fault> {
    let handoff: Handoff<Lockless> = Handoff::new();
    let ((), received) = thread::join(
        rt,
        || sends(rt, &handoff),
        || receives(rt, &handoff, rounds),
    );
    if let Some(sender) = handoff.into_left() {
        sender.end();
    }
    received
}

// Sends 1 by each sender that is handed over.
fn sends<R: Wait>(rt: &R, handoff: &Handoff<Lockless>) {
    for _ in rt.forever() {
        let Some(sender) = handoff.take(rt) else {
            return;
        };
        if let Ok(sent) = sender.send(Plain(1)) {
            sent.end();
        }
    }
}

fn receives<R: Wait + AllocGlobal>(
    rt: &R,
    handoff: &Handoff<Lockless>,
    rounds: u64,
) -> Result<(), Fault> {
    let waiter = Waiter::new(rt.alloc())?;
    let mut sum = 0u64;
    for _ in 0..rounds {
        match received(rt, handoff, &waiter) {
            Ok(message) => sum = sum.wrapping_add(message),
            Err(fault) => {
                handoff.finish();
                return Err(fault);
            }
        }
    }
    handoff.finish();
    if sum == rounds {
        Ok(())
    } else {
        Err(Fault::Answer)
    }
}

fn received<R: Wait + AllocGlobal>(
    rt: &R,
    handoff: &Handoff<Lockless>,
    waiter: &Waiter,
) -> Result<u64, Fault> {
    let (sender, receiver) = channel::<Plain<u64>, Bell>(rt.alloc())?;
    if let Some(sender) = handoff.leave(rt, sender) {
        sender.end();
    }
    let mut recv = receiver.into_future();
    let mut got = Err(Fault::NoMemory);
    for _ in rt.forever() {
        let Ok(bell) = waiter.bell() else {
            break;
        };
        match recv.poll(bell) {
            Poll::Ready(Ok(Plain(message))) => {
                got = Ok(message);
                break;
            }
            Poll::Ready(Err(_)) => {
                got = Err(Fault::Answer);
                break;
            }
            Poll::Pending => waiter.rest(rt),
        }
    }
    recv.end();
    got
}

/// The same with a lock of std round the core of a oneshot.
pub fn locked_shots<R: Threads + Wait + AllocGlobal + Sync>(
    rt: &R,
    rounds: u64,
) -> Result<(), Fault> {
    let handoff: Handoff<Locked> = Handoff::new();
    let ((), received) = thread::join(
        rt,
        || sends_locked(rt, &handoff),
        || receives_locked(rt, &handoff, rounds),
    );
    let _left = handoff.into_left();
    received
}

fn sends_locked<R: Wait>(rt: &R, handoff: &Handoff<Locked>) {
    for _ in rt.forever() {
        let Some(sender) = handoff.take(rt) else {
            return;
        };
        let woken = {
            let mut core = sender.lock(rt);
            let _sent = core.send(1);
            core.end_sender_checked();
            core.next_wake()
        };
        if let Some(bell) = woken {
            bell.wake();
        }
    }
}

fn receives_locked<R: Wait + AllocGlobal>(
    rt: &R,
    handoff: &Handoff<Locked>,
    rounds: u64,
) -> Result<(), Fault> {
    let waiter = Waiter::new(rt.alloc())?;
    let mut sum = 0u64;
    for _ in 0..rounds {
        match received_locked(rt, handoff, &waiter) {
            Ok(message) => sum = sum.wrapping_add(message),
            Err(fault) => {
                handoff.finish();
                return Err(fault);
            }
        }
    }
    handoff.finish();
    if sum == rounds {
        Ok(())
    } else {
        Err(Fault::Answer)
    }
}

fn received_locked<R: Wait + AllocGlobal>(
    rt: &R,
    handoff: &Handoff<Locked>,
    waiter: &Waiter,
) -> Result<u64, Fault> {
    let Ok(receiver) = Arc::new(rt.alloc(), Mutex::new(OneshotCore::new())) else {
        return Err(Fault::NoMemory);
    };
    let _left = handoff.leave(rt, Arc::try_clone(&receiver)?);
    for _ in rt.forever() {
        let bell = waiter.bell()?;
        let polled = receiver.lock(rt).poll_recv(bell);
        match polled {
            Poll::Ready(Ok(message)) => return Ok(message),
            Poll::Ready(Err(_)) => return Err(Fault::Answer),
            Poll::Pending => waiter.rest(rt),
        }
    }
    Err(Fault::Answer)
}
