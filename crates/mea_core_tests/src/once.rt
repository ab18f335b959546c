use crate::inits::Finishing;
use mea_base::{NoMemory, Poll};
use mea_meet_core::LatchWait;
use mea_once_core::{InitCall, OnceCore};
use std::process::Abort;

type Polled = Result<Poll<()>, (u64, NoMemory)>;

// Whether a poll is ready, if it finds memory.
fn ready(polled: &Polled) -> Option<bool> {
    match polled {
        Ok(Poll::Ready(())) => Some(true),
        Ok(Poll::Pending) => Some(false),
        Err(_) => None,
    }
}

fn called(once: &mut OnceCore<u64>, call: &mut InitCall<Finishing>, waker: u64) -> Option<bool> {
    ready(&once.poll_call_checked(call, waker))
}

// A poll of one who waits for the end.
fn waited(once: &mut OnceCore<u64>, wait: &mut LatchWait, waker: u64) -> Option<bool> {
    ready(&once.poll_wait_checked(wait, waker))
}

fn woken(once: &mut OnceCore<u64>) -> Option<u64> {
    once.next_wake()
}

// At its completion a once wakes those who wait for that, and then the next caller.
#[test]
fn a_once_wakes_waits_first(rt: HostRuntime) {
    let mut once: OnceCore<u64> = OnceCore::new(rt.alloc());
    wakes_waits_first(&rt, &mut once);
}

fn wakes_waits_first(rt: &impl Abort, once: &mut OnceCore<u64>) {
    let mut first = InitCall::new(Finishing { finished: false });
    let mut second = InitCall::new(Finishing { finished: false });
    let mut wait = LatchWait::new();
    assert!(rt; called(once, &mut first, 10) == Some(false));
    assert!(rt; called(once, &mut second, 11) == Some(false));
    assert!(rt; waited(once, &mut wait, 12) == Some(false));
    first.init.finished = true;
    assert!(rt; called(once, &mut first, 13) == Some(true));
    assert!(rt; once.is_completed());
    assert!(rt; woken(once) == Some(12));
    assert!(rt; woken(once) == Some(11));
    assert!(rt; called(once, &mut second, 14) == Some(true));
    assert!(rt; waited(once, &mut wait, 15) == Some(true));
    assert!(rt; woken(once).is_none());
}
