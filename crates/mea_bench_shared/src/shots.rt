//! One message through a oneshot channel, on one thread.
use mea::oneshot::{Plain, channel};
use mea_bench_waits::{Bell, Fault};
use mea_chan_core::OneshotCore;
use std::alloc::Global;
use std::sync::{Arc, Mutex, Wait};

/// A channel is made, a message is sent and received, and both ends end.
pub fn shots(rt: &impl AllocGlobal, rounds: u64) -> Result<(), Fault> {
    for round in 0..rounds {
        shot(rt.alloc(), round)?;
    }
    Ok(())
}

fn shot(alloc: Global, message: u64) -> Result<(), Fault> {
    let (sender, mut receiver) = channel::<Plain<u64>, Bell>(alloc)?;
    match sender.send(Plain(message)) {
        Ok(sent) => sent.end(),
        Err(_) => {
            receiver.end();
            return Err(Fault::Answer);
        }
    }
    let got = receiver.try_recv();
    receiver.end();
    match got {
        Ok(Plain(got)) if got == message => Ok(()),
        _ => Err(Fault::Answer),
    }
}

/// The same with a lock of std round the core of a oneshot.
pub fn locked_shots(rt: &(impl Wait + AllocGlobal), rounds: u64) -> Result<(), Fault> {
    for round in 0..rounds {
        locked_shot(rt, round)?;
    }
    Ok(())
}

fn locked_shot(rt: &(impl Wait + AllocGlobal), message: u64) -> Result<(), Fault> {
    let Ok(sender) = Arc::new(rt.alloc(), Mutex::new(OneshotCore::<u64, Bell>::new())) else {
        return Err(Fault::NoMemory);
    };
    let receiver = Arc::try_clone(&sender)?;
    let is_sent = sender.lock(rt).send(message).is_ok();
    sender.lock(rt).end_sender_checked();
    let got = receiver.lock(rt).try_recv();
    receiver.lock(rt).end_receiver_checked();
    if is_sent && got == Ok(message) {
        Ok(())
    } else {
        Err(Fault::Answer)
    }
}
