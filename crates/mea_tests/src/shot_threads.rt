use crate::shot::{Ends, ends, send};
use mea_base::Poll;
use mea_shot::{Plain, Receiver};
use mea_test_support::{Bell, Count, count};
use std::sync::{Arc, Mutex, Wait};
use std::test::Fail;
use std::thread;
use std::thread::Threads;

// Polls until the message is there, at most this many times: the number, or 0 where none came.
fn polled_for(receiver: Receiver<Plain<u64>, Bell>, woken: &Count, turns: u64) -> u64 {
    let mut recv = receiver.into_future();
    let mut got = 0;
    for _ in 0..turns {
        let Ok(handle) = Arc::try_clone(woken) else {
            break;
        };
        match recv.poll(Bell(handle)) {
            Poll::Ready(Ok(Plain(number))) => {
                got = number;
                break;
            }
            Poll::Ready(Err(_)) => break,
            Poll::Pending => thread::yield_now(),
        }
    }
    recv.end();
    got
}

// One thread sends the number, another polls for it: the number that came, or 0, and the number that came back, or 0.
fn exchanged(
    rt: &(impl Threads + Wait + Sync),
    ends: Ends,
    woken: &Count,
    number: u64,
    turns: u64,
) -> (u64, u64) {
    let from = Mutex::new(Some(ends.0));
    let to = Mutex::new(Some(ends.1));
    let (back, got) = thread::join(
        rt,
        || match from.lock(rt).take() {
            Some(sender) => send(sender, number).unwrap_or(0),
            None => 0,
        },
        || match to.lock(rt).take() {
            Some(receiver) => polled_for(receiver, woken, turns),
            None => 0,
        },
    );
    if let Some(sender) = from.into_inner() {
        sender.end();
    }
    if let Some(receiver) = to.into_inner() {
        receiver.end();
    }
    (got, back)
}

// Each message comes to the other thread.
#[test]
fn messages_cross_threads(rt: HostRuntime) -> Result<(), Fail> {
    let woken = count(rt.alloc())?;
    for number in 1..1001u64 {
        let (got, back) = exchanged(&rt, ends(&rt), &woken, number, 10_000_000);
        assert_eq!(rt; got, number);
        assert_eq!(rt; back, 0);
    }
    Ok(())
}

// A receiver that gives up after some turns: the message is received, dropped with it, or comes back; never two of these.
#[test]
fn a_receiver_gives_up(rt: HostRuntime) -> Result<(), Fail> {
    let woken = count(rt.alloc())?;
    for number in 1..1001u64 {
        let (got, back) = exchanged(&rt, ends(&rt), &woken, number, number % 5);
        assert!(rt; got == 0 || got == number);
        assert!(rt; back == 0 || back == number && got == 0);
    }
    Ok(())
}
