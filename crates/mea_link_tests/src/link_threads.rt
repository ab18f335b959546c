use crate::counts::bell;
use mea_link::broadcast::overflow;
use mea_link::shutdown::{ShutdownRecv, ShutdownSend, new_pair};
use mea_test_support::{Bell, Count, polled_for};
use mea_wait::Kept;
use std::alloc::AllocError;
use std::process::Abort;
use std::sync::Wait;
use std::thread;

// What one thread of the test below has: the sender, which waits for all receivers, or a receiver, which it ends.
#[derive(Drop)]
struct Part<'a, R: Wait> {
    sender: Option<Kept<'a, R, ShutdownSend<Bell>>>,
    receiver: Option<Kept<'a, R, ShutdownRecv<Bell>>>,
    is_done: bool,
}

fn plays<R: Wait>(rt: &R, part: &mut Part<'_, R>, bell: &Count) {
    drop(part.receiver.take());
    part.is_done = match part.sender.take() {
        Some(sender) => {
            polled_for(rt, sender.into_inner().await_shutdown(), bell, 10_000_000).is_some()
        }
        None => true,
    };
}

// One part that waits, and eight that end a receiver.
fn parts<'a, R: Wait + Abort + AllocGlobal>(rt: &'a R) -> Vec<Part<'a, R>> {
    let (sender, receiver) = new_pair(rt.alloc()).expect(rt, "memory");
    let first = Kept::new(rt, receiver);
    let mut parts = Vec::new(rt.alloc());
    for _ in 0..8u64 {
        let receiver = first.get().clone_handle(rt).expect(rt, "memory");
        let part = Part {
            sender: None,
            receiver: Some(Kept::new(rt, receiver)),
            is_done: false,
        };
        parts.push(part).expect(rt, "memory");
    }
    let part = Part {
        sender: Some(Kept::new(rt, sender)),
        receiver: None,
        is_done: false,
    };
    parts.push(part).expect(rt, "memory");
    parts
}

// A shutdown is awaited by one thread while eight end their receivers.
#[test]
fn a_shutdown_of_eight(rt: HostRuntime) {
    let bell = bell(&rt);
    let mut parts = parts(&rt);
    let (rt, rung) = (&rt, &bell);
    thread::for_each_mut(
        rt,
        &mut parts,
        9,
        &|_i: usize, part: &mut Part<'_, HostRuntime>| {
            plays(rt, part, rung);
        },
    );
    for part in &parts {
        assert!(rt; part.is_done);
    }
}

// What one thread of the test below sends, and from which number on.
#[derive(Drop)]
struct Sends<'a, R: Wait> {
    sender: Kept<'a, R, overflow::Sender<u64, Bell>>,
    from: u64,
}

fn send_ten<R: Wait>(rt: &R, of: &Sends<'_, R>) {
    for n in 0..10u64 {
        let _ = of.sender.get().send(rt, of.from.wrapping_add(n));
    }
}

// Three that send, of this sender.
fn senders<'a, R: Wait + Abort + AllocGlobal>(
    rt: &'a R,
    sender: overflow::Sender<u64, Bell>,
) -> Vec<Sends<'a, R>> {
    let first = Kept::new(rt, sender);
    let mut all = Vec::new(rt.alloc());
    for from in 0..3u64 {
        let sender = first.get().clone_handle(rt).expect(rt, "memory");
        let sends = Sends {
            sender: Kept::new(rt, sender),
            from: from.wrapping_mul(10),
        };
        all.push(sends).expect(rt, "memory");
    }
    all
}

// What there is to be received, at most so many, in the order of numbers.
fn received<R: Wait + AllocGlobal>(
    rt: &R,
    receiver: &mut overflow::Receiver<u64, Bell>,
    most: u64,
) -> Result<Vec<u64>, AllocError> {
    let mut got = Vec::new(rt.alloc());
    for _ in 0..most {
        if let Ok(message) = receiver.try_recv(rt) {
            got.push(message)?;
        }
    }
    got.sort()?;
    Ok(got)
}

// Three senders of one broadcast channel: its receiver gets all that they sent.
#[test]
fn test_multi_senders_concurrent(rt: HostRuntime) {
    let (sender, mut receiver) = overflow::channel(rt.alloc(), 100).expect(&rt, "memory");
    let mut all = senders(&rt, sender);
    let r = &rt;
    thread::for_each_mut(
        r,
        &mut all,
        3,
        &|_i: usize, of: &mut Sends<'_, HostRuntime>| {
            send_ten(r, of);
        },
    );
    let got = received(r, &mut receiver, 30).expect(r, "memory");
    assert!(rt; got.len() == 30);
    for (place, message) in got.iter().enumerate() {
        assert!(rt; *message == place as u64);
    }
}
