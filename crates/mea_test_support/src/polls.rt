ghost use Rattle.std.specs.Prelude.{IsSomeAnd, IfSome};
ghost use Rattle.mea_test_support.specs.Polls.{IfReady, IfPending};

use crate::bell::{Bell, Count};
use mea_wait::{End, Polled, Unpolled, Waits};
use std::sync::{Arc, Wait};
use std::thread;

/// What a poll came to: the output, or the wait, which has ended where it was refused.
pub enum PollOutcome<F, O> {
    Ready(O),
    Pending(F),
    Refused,
}

/// Polls a wait with a waker that counts. It is refused for want of memory or for a fault of the wait.
pub fn poll<R: Wait, F: Waits<Bell, O>, O>(rt: &R, wait: F, count: &Count) -> PollOutcome<F, O>
    requires { F.can_poll wait }
    ensures value { IfReady result (F.gives wait) }
    ensures same { IfPending result (λ f. (x : _) → F.gives f x → F.gives wait x) }
    ensures again { IfPending result F.can_poll }
{
    let Ok(count) = Arc::try_clone(count) else {
        wait.end(rt);
        return PollOutcome::Refused;
    };
    match wait.poll(rt, Bell(count)) {
        Ok(Polled::Ready(output)) => PollOutcome::Ready(output),
        Ok(Polled::Pending(wait)) => PollOutcome::Pending(wait),
        Err(
            Unpolled {
                future,
                waker: _,
                fault: _,
            },
        ) => {
            future.end(rt);
            PollOutcome::Refused
        }
    }
}

/// Polls a wait that is to go on, and hands it back; what it gives instead is ended.
pub fn pends<R: Wait, F: Waits<Bell, O>, O: End>(rt: &R, wait: F, count: &Count) -> Option<F>
    requires { F.can_poll wait }
    ensures same { IfSome result (λ f. (x : _) → F.gives f x → F.gives wait x) }
    ensures again { IfSome result F.can_poll }
{
    match poll(rt, wait, count) {
        PollOutcome::Ready(output) => {
            output.end(rt);
            None
        }
        PollOutcome::Pending(wait) => Some(wait),
        PollOutcome::Refused => None,
    }
}

/// Polls a wait that is to go on, and hands it back; what it gives instead is dropped.
pub fn goes_on<R: Wait, F: Waits<Bell, O>, O: Drop>(rt: &R, wait: F, count: &Count) -> Option<F>
    requires { F.can_poll wait }
    ensures same { IfSome result (λ f. (x : _) → F.gives f x → F.gives wait x) }
    ensures again { IfSome result F.can_poll }
{
    match poll(rt, wait, count) {
        PollOutcome::Ready(_) => None,
        PollOutcome::Pending(wait) => Some(wait),
        PollOutcome::Refused => None,
    }
}

/// Polls a wait that is to be ready, if there is one, and hands out what it gives; a wait that goes on is ended.
pub fn gives<R: Wait, F: Waits<Bell, O>, O>(rt: &R, wait: Option<F>, count: &Count) -> Option<O>
    requires { IfSome wait F.can_poll }
    ensures { IfSome result (λ output. IsSomeAnd wait (λ f. F.gives f output)) }
{
    match poll(rt, wait?, count) {
        PollOutcome::Ready(output) => Some(output),
        PollOutcome::Pending(wait) => {
            wait.end(rt);
            None
        }
        PollOutcome::Refused => None,
    }
}

/// Polls a wait until it gives its output, at most so many times, and lets other threads run after each; a wait that goes on
/// after them is ended.
pub fn polled_for<R: Wait, F: Waits<Bell, O>, O>(
    rt: &R,
    wait: F,
    count: &Count,
    turns: u64,
) -> Option<O>
    requires { F.can_poll wait }
    ensures { IfSome result (F.gives wait) }
{
    let mut wait = wait;
    for _ in 0..turns {
        match poll(rt, wait, count) {
            PollOutcome::Ready(output) => return Some(output),
            PollOutcome::Refused => return None,
            PollOutcome::Pending(back) => wait = back,
        }
        thread::yield_now();
    }
    wait.end(rt);
    None
}
