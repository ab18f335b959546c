use crate::counts::bell;
use mea_link::barrier::{Barrier, BarrierWait};
use mea_link::shutdown::{ShutdownRecv, ShutdownSend, new_pair};
use mea_test_support::{Bell, Count, end, gives, goes_on, rung};
use mea_wait::{End, Waits};
use std::process::Abort;
use std::sync::Wait;

// Whether a wait at a barrier is over, and leads.
fn leads<R: Wait>(rt: &R, wait: Option<BarrierWait<'_, Bell>>, bell: &Count) -> Option<bool> {
    let over = gives(rt, wait, bell)?;
    Some(over.is_leader())
}

/// Who is the last but one waits here, and the last leads and wakes it.
pub(crate) fn has_a_leader<R: Wait + Abort>(rt: &R, barrier: &Barrier<Bell>, bell: &Count) {
    let first = goes_on(rt, barrier.wait(), bell);
    assert!(rt; leads(rt, Some(barrier.wait()), bell) == Some(true));
    assert!(rt; rung(bell) == 1);
    assert!(rt; leads(rt, first, bell) == Some(false));
}

// Each sender of a shutdown may ask for it, and each watch hears of it. A sender waits for all receivers.
#[test]
fn handles_of_a_shutdown(rt: HostRuntime) {
    let bell = bell(&rt);
    let (sender, receiver) = new_pair(rt.alloc()).expect(&rt, "memory");
    have_one_signal(&rt, &sender, &receiver, &bell);
    waits_for_all(&rt, sender.await_shutdown(), receiver, &bell);
}

fn have_one_signal<R: Wait + Abort>(
    rt: &R,
    sender: &ShutdownSend<Bell>,
    receiver: &ShutdownRecv<Bell>,
    bell: &Count,
) {
    let watch = receiver.watch().expect(rt, "memory");
    let copy = watch.clone_handle().expect(rt, "memory");
    let signal = goes_on(rt, watch.is_shutdown(), bell);
    let owned = copy.is_shutdown_owned().expect(rt, "memory");
    let owned = goes_on(rt, owned, bell);
    let other = sender.clone_handle().expect(rt, "memory");
    assert!(rt; !copy.is_shutdown_now(rt) && !receiver.is_shutdown_now(rt));
    other.shutdown(rt);
    assert!(rt; rung(bell) == 2);
    assert!(rt; gives(rt, signal, bell) == Some(()));
    assert!(rt; gives(rt, owned, bell) == Some(()));
    assert!(rt; copy.is_shutdown_now(rt));
    other.end(rt);
    copy.end(rt);
    watch.end(rt);
}

fn waits_for_all<R: Wait + Abort, F: Waits<Bell, ()>>(
    rt: &R,
    done: F,
    receiver: ShutdownRecv<Bell>,
    bell: &Count,
)
    requires { F.can_poll done }
{
    let second = receiver.clone_handle(rt).ok();
    let done = goes_on(rt, done, bell);
    receiver.end(rt);
    assert!(rt; rung(bell) == 2);
    assert!(rt; end(rt, second));
    assert!(rt; rung(bell) == 3);
    assert!(rt; gives(rt, done, bell) == Some(()));
}
