//! Any wait, on this thread.
ghost use Rattle.std.specs.Prelude.{◌≡◌, IfOk, MatchOption};

use crate::bell::Bell;
use crate::waiting::wait;
use futures::Future;
use futures::executor::block_on;
use futures::future::{Either, select};
use mea_base::NoMemory;
use mea_wait::{PollFault, Waits};
use std::alloc::AllocGlobal;
use std::io;
use std::random::RandomSource;
use std::sync::Wait;

// A refused poll, as an error of the program.
pub(crate) fn refusal(fault: PollFault) -> io::Error {
    match fault {
        PollFault::NoMemory => io::Error::from(NoMemory),
        PollFault::Overflow => io::Error::other("a count is at its greatest value"),
    }
}

/// Waits on this thread, by any wait of the library, and answers what it gives: `block(&rt, mutex.lock())?` is a guard.
///
/// An error says that there was no memory, for the bell or to wait, or that a count is at its end; the wait is then ended.
/// That it comes to an end, no clause says: it does where others let it. It makes an executor, for which it asks the system for
/// random bytes: a thread that waits often keeps a `Blocker`.
pub fn block<R, F, O>(rt: &R, of: F) -> io::Result<O>
where
    R: Wait + RandomSource + AllocGlobal,
    F: Waits<Bell, O>,
    requires { F.can_poll of }
    ensures { IfOk result (λ output. F.gives of output) }
{
    match block_on(rt, wait(rt, rt.alloc(), of)?)? {
        Ok(output) => Ok(output),
        Err(fault) => Err(refusal(fault)),
    }
}

/// `block`, until the deadline is ready: the wait is then ended, and there is no output. A wait that is ready gives its output,
/// also where the deadline is ready beside it.
pub fn block_before<R, F, O, D>(rt: &R, of: F, deadline: D) -> io::Result<Option<O>>
where
    R: Wait + RandomSource + AllocGlobal,
    F: Waits<Bell, O>,
    D: Future<Output = ()>,
    requires wait { F.can_poll of }
    requires deadline { D.can_poll deadline }
    ensures { IfOk result (λ s. MatchOption s (D.gives deadline tt) (λ output. F.gives of output)) }
{
    match block_on(rt, select(wait(rt, rt.alloc(), of)?, deadline))? {
        Either::Left((answer, _deadline)) => match answer {
            Ok(output) => Ok(Some(output)),
            Err(fault) => Err(refusal(fault)),
        },
        // The wait is dropped here, and so ended.
        Either::Right(((), _wait)) => Ok(None),
    }
}
