//! Messages between threads, and to many receivers.
use mea::End;
use mea::broadcast::overflow;
use mea::mpsc::{BoundedReceiver, BoundedSender, bounded};
use mea_bench_waits::gathered::receivers_of;
use mea_bench_waits::{Bell, Fault, Waiter};
use std::sync::Wait;
use std::thread;
use std::thread::Threads;

/// How many messages the bounded channel holds.
const PLACES: usize = 64;

/// How many receivers hear a broadcast.
const RECEIVERS: u64 = 100;

/// Messages go through a bounded channel, from so many threads to one.
pub fn messages<R: Threads + Wait + AllocGlobal + Sync>(
    rt: &R,
    rounds: u64,
    threads: u64,
) -> Result<(), Fault> {
    let (sender, mut receiver) = bounded(rt.alloc(), PLACES)?;
    let done = exchanged(rt, &sender, &mut receiver, rounds, threads);
    sender.end(rt);
    receiver.end(rt);
    done
}

// Each thread sends its part, and this one receives all.
fn exchanged<R: Threads + Wait + AllocGlobal + Sync>(
    rt: &R,
    sender: &BoundedSender<u64, Bell>,
    receiver: &mut BoundedReceiver<u64, Bell>,
    rounds: u64,
    threads: u64,
) -> Result<(), Fault> {
    let part = rounds / threads.max(1);
    thread::scope(thread::scope_env(), rt, |scope| {
        let mut started = 0u64;
        for _ in 0..threads {
            if scope.spawn(move || sends(rt, sender, part)).is_ok() {
                started = started.saturating_add(1);
            }
        }
        receives(rt, receiver, part.saturating_mul(started))
    })
}

fn sends<R: Wait + AllocGlobal>(
    rt: &R,
    sender: &BoundedSender<u64, Bell>,
    times: u64,
) -> Result<(), Fault> {
    let waiter = Waiter::new(rt.alloc())?;
    for message in 0..times {
        if waiter.wait(rt, sender.send(message))?.is_err() {
            return Err(Fault::Answer);
        }
    }
    Ok(())
}

fn receives<R: Wait + AllocGlobal>(
    rt: &R,
    receiver: &mut BoundedReceiver<u64, Bell>,
    times: u64,
) -> Result<(), Fault> {
    let waiter = Waiter::new(rt.alloc())?;
    for _ in 0..times {
        if waiter.wait(rt, receiver.recv())?.is_err() {
            return Err(Fault::Answer);
        }
    }
    Ok(())
}

/// A message is sent to a hundred receivers, and each has it: so many are had, in hundreds.
pub fn broadcasts<R: Wait + AllocGlobal>(rt: &R, rounds: u64) -> Result<(), Fault> {
    let Ok((sender, _)) = overflow::channel::<u64, Bell>(rt.alloc(), 1) else {
        return Err(Fault::NoMemory);
    };
    let done = heard(rt, &sender, rounds / RECEIVERS);
    sender.end(rt);
    done
}

fn heard<R: Wait + AllocGlobal>(
    rt: &R,
    sender: &overflow::Sender<u64, Bell>,
    messages: u64,
) -> Result<(), Fault> {
    let mut receivers = receivers_of(rt, sender, RECEIVERS)?;
    for message in 0..messages {
        if sender.send(rt, message).is_err() {
            return Err(Fault::Answer);
        }
        all_hear(rt, receivers.as_mut_slice(), message)?;
    }
    Ok(())
}

fn all_hear<R: Wait>(
    rt: &R,
    receivers: &mut [overflow::Receiver<u64, Bell>],
    message: u64,
) -> Result<(), Fault> {
    for receiver in receivers.iter_mut() {
        if receiver.try_recv(rt) != Ok(message) {
            return Err(Fault::Answer);
        }
    }
    Ok(())
}
