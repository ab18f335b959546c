//! Waits as futures whose output may be dropped, and polls of them.
//!
//! What is known of such a future is which wait it has, so each poll here asks for the bound of the wait alone. The polls of
//! any future, in `polls`, ask for that of the future, which the proof builds of the other at each call.
ghost use Rattle.std.specs.Prelude.{◌≡◌, Some, true, IsSomeAnd};

use crate::polls::{has, rests};
use futures::test::MockTask;
use mea_futures::{Bell, TryHolding, wait};
use mea_wait::{End, Waits};
use std::alloc::AllocGlobal;
use std::process::Abort;
use std::sync::Wait;

/// A future of a wait, with a bell, which was never polled.
pub fn holding<'a, R: Wait + AllocGlobal + Abort, F: Waits<Bell, Result<P, E>>, P, E>(
    rt: &'a R,
    of: F,
) -> TryHolding<'a, R, F, P, E>
    requires { F.can_poll of }
    ensures { result.waiting.wait ≡ Some of }
{
    wait(rt, rt.alloc(), of).expect(rt, "memory").try_holding()
}

/// Polls a wait, and tells whether it is pending.
pub fn is_pending<R: Wait, F: Waits<Bell, Result<P, E>>, P: End, E: Drop>(
    task: &MockTask,
    wait: &mut TryHolding<'_, R, F, P, E>,
) -> bool
    requires { IsSomeAnd wait.old.waiting.wait F.can_poll }
    ensures { result ≡ true → IsSomeAnd wait.new.waiting.wait F.can_poll }
{
    rests(task, wait)
}

/// Polls a wait, and tells whether it has what it waited for, which is given back.
pub fn is_granted<R: Wait, F: Waits<Bell, Result<P, E>>, P: End, E: Drop>(
    task: &MockTask,
    wait: &mut TryHolding<'_, R, F, P, E>,
) -> bool
    requires { IsSomeAnd wait.old.waiting.wait F.can_poll }
{
    has(task, wait)
}
