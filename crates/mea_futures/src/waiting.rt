ghost use Rattle.std.specs.Prelude.{◌≡◌, Some, None, IsSomeAnd, IfOk};
ghost use Rattle.futures.specs.Task.{Covers, Keeps};
ghost use Rattle.futures.specs.Poll.{IfReady, OnPending};

use crate::bell::Bell;
use futures::Future;
use futures::task::{Context, Poll, Source};
use mea_base::{NoMemory, Wake};
use mea_wait::{End, PollFault, Polled, Unpolled, Waits};
use std::alloc::Global;
use std::marker::PhantomData;
use std::mem;
use std::sync::Wait;

/// A wait of `mea` as a future of the kit's executors, for every one of its futures. To drop it ends the wait: what it was
/// paid goes on at once, to the next.
///
/// It gives what the wait gives. Where a poll of the wait is refused, the wait is ended, and this is ready with the reason.
pub struct Waiting<'a, R: Wait, F: Waits<Bell, O>, O> {
    pub(crate) rt: &'a R,
    // None once it was ready.
    pub(crate) wait: Option<F>,
    bell: Bell,
    // What its bell rings, for this wait alone.
    rung: Source,
    // The bell may have the waker of a task.
    has_rested: bool,
    output: PhantomData<O>,
}

/// Makes a future of a wait. It takes memory for the bell; where there is none, the wait is ended.
pub fn wait<'a, R: Wait, F: Waits<Bell, O>, O>(
    rt: &'a R,
    alloc: Global,
    wait: F,
) -> Result<Waiting<'a, R, F, O>, NoMemory>
    requires { F.can_poll wait }
    ensures { IfOk result (λ w. w.wait ≡ Some wait) }
{
    match Bell::new(alloc) {
        Ok(bell) => Ok(waiting_by(rt, bell, wait)),
        Err(_) => {
            wait.end(rt);
            Err(NoMemory)
        }
    }
}

// The same by a share of a bell that is there. Where no further share can be had, the wait is ended.
pub(crate) fn wait_by<'a, R: Wait, F: Waits<Bell, O>, O>(
    rt: &'a R,
    bell: &Bell,
    wait: F,
) -> Result<Waiting<'a, R, F, O>, NoMemory>
    requires { F.can_poll wait }
    ensures { IfOk result (λ w. w.wait ≡ Some wait) }
{
    match bell.again() {
        Some(bell) => Ok(waiting_by(rt, bell, wait)),
        None => {
            wait.end(rt);
            Err(NoMemory)
        }
    }
}

fn waiting_by<'a, R: Wait, F: Waits<Bell, O>, O>(
    rt: &'a R,
    bell: Bell,
    wait: F,
) -> Waiting<'a, R, F, O>
    ensures { result.wait ≡ Some wait }
{
    Waiting {
        rt,
        wait: Some(wait),
        bell,
        rung: Source::new(),
        has_rested: false,
        output: PhantomData,
    }
}

// Puts a wait back into its place, which is empty. To assign it would drop what was there, which a wait does not allow.
fn put<F>(place: &mut Option<F>, wait: F)
    requires { place.old ≡ None }
    ensures { place.new ≡ Some wait }
{
    match mem::replace(place, Some(wait)) {
        None => {}
        Some(_) => unreachable!(),
    }
}

impl<'a, R: Wait, F: Waits<Bell, O>, O> Waiting<'a, R, F, O> {
    // One with no wait yet.
    pub(crate) fn idle(rt: &'a R, alloc: Global) -> Result<Self, NoMemory>
        ensures { IfOk result (λ w. w.wait ≡ None) }
    {
        let bell = Bell::new(alloc)?;
        Ok(Waiting {
            rt,
            wait: None,
            bell,
            rung: Source::new(),
            has_rested: false,
            output: PhantomData,
        })
    }

    // Begins a further wait, with the same bell.
    pub(crate) fn begin(&mut self, wait: F)
        requires { self.old.wait ≡ None }
        ensures wait { self.new.wait ≡ Some wait }
        ensures rung { self.new.rung ≡ self.old.rung }
    {
        put(&mut self.wait, wait);
    }

    /// Begins a further wait with the same bell: it takes no memory, so a task that waits again and again takes some once. Where
    /// the wait before was not ready yet, it is ended.
    pub fn restart(&mut self, wait: F)
        requires { F.can_poll wait }
        ensures wait { self.new.wait ≡ Some wait }
        ensures rung { self.new.rung ≡ self.old.rung }
    {
        if let Some(abandoned) = mem::replace(&mut self.wait, Some(wait)) {
            abandoned.end(self.rt);
        }
    }

    // Polls the wait, of which there is nothing left where this is ready.
    pub(crate) fn step(&mut self, cx: &mut Context<'_>) -> Poll<Result<O, PollFault>>
        requires { IsSomeAnd self.old.wait F.can_poll }
        ensures value { IfReady result (λ r. IfOk r (λ x. IsSomeAnd self.old.wait (λ f. F.gives f x))) }
        ensures done { IfReady result (λ _. self.new.wait ≡ None) }
        ensures again { OnPending result (IsSomeAnd self.new.wait F.can_poll) }
        ensures same { OnPending result ((x : _) → IsSomeAnd self.new.wait (λ f. F.gives f x) → IsSomeAnd self.old.wait (λ f. F.gives f x)) }
        ensures registered { OnPending result (Covers cx.new (λ s. s ≡ self.new.rung.id)) }
        ensures kept { Keeps cx.old cx.new }
        ensures rung { self.new.rung ≡ self.old.rung }
    {
        let Some(wait) = self.wait.take() else {
            unreachable!()
        };
        let Some(bell) = self.bell.again() else {
            wait.end(self.rt);
            return Poll::Ready(Err(PollFault::NoMemory));
        };
        // A wake from here on is seen where the task comes to rest, so it may register after the poll.
        if self.bell.calm() {
            self.has_rested = false;
        }
        match wait.poll(self.rt, bell) {
            Ok(Polled::Ready(output)) => Poll::Ready(Ok(output)),
            Ok(Polled::Pending(wait)) => {
                put(&mut self.wait, wait);
                self.has_rested = true;
                self.bell.rest(cx, &self.rung)
            }
            Err(
                Unpolled {
                    future,
                    waker: _,
                    fault,
                },
            ) => {
                future.end(self.rt);
                Poll::Ready(Err(fault))
            }
        }
    }
}

impl<'a, R: Wait, F: Waits<Bell, O>, O> Future for Waiting<'a, R, F, O> {
    type Output = Result<O, PollFault>;

    ghost can_poll = { λ w. IsSomeAnd w.wait F.can_poll };

    ghost needs = { λ w s. s ≡ w.rung.id };

    ghost gives = { λ w r. IfOk r (λ x. IsSomeAnd w.wait (λ f. F.gives f x)) };

    fn poll(&mut self, cx: &mut Context<'_>) -> Poll<Result<O, PollFault>> {
        self.step(cx)
    }
}

impl<'a, R: Wait, F: Waits<Bell, O>, O> Drop for Waiting<'a, R, F, O> {
    fn drop(self) {
        let Waiting {
            rt,
            wait,
            bell,
            rung: _,
            has_rested,
            output: _,
        } = self;
        if let Some(wait) = wait {
            wait.end(rt);
        }
        // A type that keeps its bell until later has none then that could wake the task where it is dropped under a lock.
        if has_rested {
            bell.wake();
        }
    }
}
