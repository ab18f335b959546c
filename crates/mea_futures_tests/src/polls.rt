//! Tasks that poll by hand, and polls that tell what they came to.
//!
//! The tests hand their futures to functions that are generic in them: there a drop is one call, where a drop of a large
//! type that is known is taken apart by the proof, once for each way out.
ghost use Rattle.std.specs.Prelude.{◌≡◌, true};

use futures::Future;
use futures::task::Poll;
use futures::test::MockTask;
use mea_wait::PollFault;
use std::alloc::AllocGlobal;
use std::process::Abort;
use std::random::RandomSource;

/// What a wait comes to: what it waited for, or why there is none of it, unless it was refused.
pub type Answer<P, E> = Result<Result<P, E>, PollFault>;

/// Two tasks.
#[derive(Drop)]
pub struct Tasks {
    pub one: MockTask,
    pub two: MockTask,
}

impl Tasks {
    /// Two that were never polled.
    pub fn new<R: RandomSource + AllocGlobal + Abort>(rt: &R) -> Self {
        Tasks {
            one: MockTask::new(rt).expect(rt, "memory"),
            two: MockTask::new(rt).expect(rt, "memory"),
        }
    }
}

/// Polls a future, and tells whether it is pending.
pub fn rests<O: Drop, F: Future<Output = O>>(task: &MockTask, future: &mut F) -> bool
    requires { F.can_poll future.old }
    ensures { result ≡ true → F.can_poll future.new }
{
    match task.poll(future) {
        Poll::Pending => true,
        Poll::Ready(_) => false,
    }
}

/// Polls a future, and tells whether it is ready with what it waited for, which is dropped.
pub fn has<P: Drop, E: Drop, F: Future<Output = Answer<P, E>>>(
    task: &MockTask,
    future: &mut F,
) -> bool
    requires { F.can_poll future.old }
{
    matches!(task.poll(future), Poll::Ready(Ok(Ok(_))))
}

/// What a wait waited for, if it came to that.
pub fn granted<P: Drop, E: Drop>(answer: Answer<P, E>) -> Option<P> {
    match answer {
        Ok(Ok(granted)) => Some(granted),
        Ok(Err(_)) | Err(_) => None,
    }
}

/// What a poll gives of that, if it is ready.
pub fn given<P: Drop, E: Drop>(poll: Poll<Answer<P, E>>) -> Option<P> {
    match poll {
        Poll::Ready(answer) => granted(answer),
        Poll::Pending => None,
    }
}
