//! What is done with what a wait gives, a guard, a permit or a lease: no test keeps one.
ghost use Rattle.std.specs.Prelude.{IfSome};

use mea_test_support::{Bell, Count, PollOutcome, count, gives, poll};
use mea_wait::{End, Waits};
use std::ops::{Deref, DerefMut};
use std::process::Abort;
use std::sync::{Arc, Wait};

/// A count of no wakes.
pub(crate) fn bell(rt: &(impl Abort + AllocGlobal)) -> Count {
    count(rt.alloc()).expect(rt, "memory")
}

/// What a guard shows, if there is one; it is ended.
pub(crate) fn shows<R: Wait, G: End + Deref<Target = u64>>(
    rt: &R,
    guard: Option<G>,
) -> Option<u64> {
    let guard = guard?;
    let value = *guard;
    guard.end(rt);
    Some(value)
}

/// Writes by a guard and ends it, and tells whether there was one.
pub(crate) fn sets<R: Wait, G: End + DerefMut<Target = u64>>(
    rt: &R,
    guard: Option<G>,
    value: u64,
) -> bool {
    let Some(mut guard) = guard else {
        return false;
    };
    *guard = value;
    guard.end(rt);
    true
}

/// What the guard shows that a wait gives, if it does; it is ended.
pub(crate) fn finds<R: Wait, F: Waits<Bell, G>, G: End + Deref<Target = u64>>(
    rt: &R,
    wait: Option<F>,
    count: &Count,
) -> Option<u64>
    requires { IfSome wait F.can_poll }
{
    shows(rt, gives(rt, wait, count))
}

/// What a guard shows, if there is one; this is written, and it is ended.
pub(crate) fn swaps<R: Wait, G: End + DerefMut<Target = u64>>(
    rt: &R,
    guard: Option<G>,
    value: u64,
) -> Option<u64> {
    let mut guard = guard?;
    let before = *guard;
    *guard = value;
    guard.end(rt);
    Some(before)
}

/// Polls a wait that may be refused and is to go on, and hands it back.
pub(crate) fn waits<R: Wait, F: Waits<Bell, Result<P, E>>, P: End, E: Drop>(
    rt: &R,
    wait: F,
    count: &Count,
) -> Option<F>
    requires { F.can_poll wait }
    ensures { IfSome result F.can_poll }
{
    match poll(rt, wait, count) {
        PollOutcome::Ready(Ok(given)) => {
            given.end(rt);
            None
        }
        PollOutcome::Ready(Err(_)) | PollOutcome::Refused => None,
        PollOutcome::Pending(wait) => Some(wait),
    }
}

/// What such a wait gives, if it does; a wait that goes on is ended.
pub(crate) fn granted<R: Wait, F: Waits<Bell, Result<P, E>>, P: End, E: Drop>(
    rt: &R,
    wait: Option<F>,
    count: &Count,
) -> Option<P>
    requires { IfSome wait F.can_poll }
{
    match gives(rt, wait, count) {
        Some(Ok(given)) => Some(given),
        Some(Err(_)) | None => None,
    }
}

/// Whether such a wait is refused, since what it is for was closed.
pub(crate) fn hears<R: Wait, F: Waits<Bell, Result<P, E>>, P: End, E: Drop>(
    rt: &R,
    wait: Option<F>,
    count: &Count,
) -> bool
    requires { IfSome wait F.can_poll }
{
    match gives(rt, wait, count) {
        Some(Ok(given)) => {
            given.end(rt);
            false
        }
        Some(Err(_)) => true,
        None => false,
    }
}

/// A further share.
pub(crate) fn share<T: Drop>(rt: &impl Abort, of: &Arc<T>) -> Arc<T> {
    Arc::try_clone(of).expect(rt, "memory")
}
