ghost use Rattle.std.specs.Prelude.{◌≡◌, Ok, Some, IsSomeAnd, IfOk};

use crate::bell::Bell;
use crate::waiting::Waiting;
use futures::task::{Context, Poll};
use futures::{Future, ready};
use mea_wait::{End, Kept, PollFault, Waits};
use std::sync::Wait;

/// A wait as a future, whose output is ended where it is dropped in its turn: a guard, a permit or a handle may then be
/// dropped by a `join`, held in a task, or put into a closure.
#[derive(Drop)]
pub struct Holding<'a, R: Wait, F: Waits<Bell, O>, O> {
    pub(crate) rt: &'a R,
    waiting: Waiting<'a, R, F, O>,
}

/// `Holding` of a wait that gives a value to be spent or an error, as an acquire of a semaphore does.
#[derive(Drop)]
pub struct TryHolding<'a, R: Wait, F: Waits<Bell, Result<P, E>>, P, E> {
    pub(crate) rt: &'a R,
    waiting: Waiting<'a, R, F, Result<P, E>>,
}

impl<'a, R: Wait, F: Waits<Bell, O>, O> Waiting<'a, R, F, O> {
    /// The same wait, with an output that may be dropped. It takes no memory.
    pub fn holding(self) -> Holding<'a, R, F, O>
        ensures { result.waiting.wait ≡ self.entry.wait }
    {
        let rt = self.rt;
        Holding { rt, waiting: self }
    }
}

impl<'a, R: Wait, F: Waits<Bell, Result<P, E>>, P, E> Waiting<'a, R, F, Result<P, E>> {
    /// The same wait, with an output that may be dropped where it is no error. It takes no memory.
    pub fn try_holding(self) -> TryHolding<'a, R, F, P, E>
        ensures { result.waiting.wait ≡ self.entry.wait }
    {
        let rt = self.rt;
        TryHolding { rt, waiting: self }
    }
}

impl<'a, R: Wait, F: Waits<Bell, O>, O> Holding<'a, R, F, O> {
    /// Begins a further wait with the same bell, as `restart` of `Waiting` does: it takes no memory.
    pub fn restart(&mut self, wait: F)
        requires { F.can_poll wait }
        ensures { self.new.waiting.wait ≡ Some wait }
    {
        self.waiting.restart(wait);
    }
}

impl<'a, R: Wait, F: Waits<Bell, Result<P, E>>, P, E> TryHolding<'a, R, F, P, E> {
    /// Begins a further wait with the same bell, as `restart` of `Waiting` does: it takes no memory.
    pub fn restart(&mut self, wait: F)
        requires { F.can_poll wait }
        ensures { self.new.waiting.wait ≡ Some wait }
    {
        self.waiting.restart(wait);
    }
}

impl<'a, R: Wait, F: Waits<Bell, O>, O: End> Future for Holding<'a, R, F, O> {
    type Output = Result<Kept<'a, R, O>, PollFault>;

    ghost can_poll = { λ h. IsSomeAnd h.waiting.wait F.can_poll };

    ghost needs = { λ h s. s ≡ h.waiting.rung.id };

    ghost gives = { λ h r. IfOk r (λ k. IsSomeAnd h.waiting.wait (λ f. F.gives f k.value)) };

    fn poll(&mut self, cx: &mut Context<'_>) -> Poll<Result<Kept<'a, R, O>, PollFault>> {
        match ready!(self.waiting.poll(cx)) {
            Ok(output) => Poll::Ready(Ok(Kept::new(self.rt, output))),
            Err(fault) => Poll::Ready(Err(fault)),
        }
    }
}

impl<'a, R: Wait, F: Waits<Bell, Result<P, E>>, P: End, E> Future for TryHolding<'a, R, F, P, E> {
    type Output = Result<Result<Kept<'a, R, P>, E>, PollFault>;

    ghost can_poll = { λ h. IsSomeAnd h.waiting.wait F.can_poll };

    ghost needs = { λ h s. s ≡ h.waiting.rung.id };

    ghost gives = { λ h r. IfOk r (λ o. IfOk o (λ k. IsSomeAnd h.waiting.wait (λ f. F.gives f (Ok k.value)))) };

    fn poll(&mut self, cx: &mut Context<'_>) -> Poll<Result<Result<Kept<'a, R, P>, E>, PollFault>> {
        match ready!(self.waiting.poll(cx)) {
            Ok(Ok(output)) => Poll::Ready(Ok(Ok(Kept::new(self.rt, output)))),
            Ok(Err(e)) => Poll::Ready(Ok(Err(e))),
            Err(fault) => Poll::Ready(Err(fault)),
        }
    }
}
