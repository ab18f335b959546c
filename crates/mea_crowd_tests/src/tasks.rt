//! Tasks that any wait or any receiver may have, generic in it: so the proof of a drop or a poll takes nothing apart.
ghost use Rattle.std.specs.Prelude.{◌≡◌, None, IsSomeAnd, IfNone};

use futures::task::{Context, Poll};
use futures::{Future, Stream, ready};
use mea::{Claim, Claimed, End, Never, Waits};
use mea_futures::{Bell, Holding, Initialising, Kept, initialise, wait};
use std::alloc::AllocGlobal;
use std::process::Abort;
use std::sync::atomic::AtomicU64;
use std::sync::atomic::Ordering::SeqCst;
use std::sync::{Arc, Wait};

/// A further share.
pub(crate) fn share<T: Drop>(rt: &impl Abort, of: &Arc<T>) -> Arc<T> {
    Arc::try_clone(of).expect(rt, "memory")
}

/// A task that waits for what has to be spent, yields with it, and ends it where it drops what it kept. It is generic in the
/// wait, so that the proof puts the task together here, and not for each kind of wait.
#[derive(Drop)]
pub(crate) struct Spends<'a, R: Wait, F: Waits<Bell, O>, O: End> {
    turn: Holding<'a, R, F, O>,
    held: Option<Kept<'a, R, O>>,
}

/// One that was never polled.
pub(crate) fn using<'a, R: Wait + AllocGlobal + Abort, F: Waits<Bell, O>, O: End>(
    rt: &'a R,
    turn: F,
) -> Spends<'a, R, F, O>
    requires { F.can_poll turn }
    ensures { (result.held ≡ None) × IsSomeAnd result.turn.waiting.wait F.can_poll }
{
    let waiting = wait(rt, rt.alloc(), turn).expect(rt, "memory");
    Spends {
        turn: waiting.holding(),
        held: None,
    }
}

impl<'a, R: Wait, F: Waits<Bell, O>, O: End> Future for Spends<'a, R, F, O> {
    type Output = ();

    ghost can_poll = { λ s. IfNone s.held (IsSomeAnd s.turn.waiting.wait F.can_poll) };

    fn poll(&mut self, cx: &mut Context<'_>) -> Poll<()> {
        if self.held.take().is_some() {
            return Poll::Ready(());
        }
        match ready!(self.turn.poll(cx)) {
            Ok(held) => {
                self.held = Some(held);
                cx.yield_now()
            }
            Err(_) => Poll::Ready(()),
        }
    }
}

/// A task that waits for what it then drops.
#[derive(Drop)]
pub(crate) struct Awaits<F: Future> {
    pub(crate) awaited: F,
}

impl<O: Drop, F: Future<Output = O>> Future for Awaits<F> {
    type Output = ();

    ghost can_poll = { λ a. F.can_poll a.awaited };

    fn poll(&mut self, cx: &mut Context<'_>) -> Poll<()> {
        match self.awaited.poll(cx) {
            Poll::Ready(_) => Poll::Ready(()),
            Poll::Pending => Poll::Pending,
        }
    }
}

/// A task that waits for a value, and computes it where nobody else does. It is generic in the parts of the wait, so that the
/// proof puts them together here, and not for each kind of wait.
#[derive(Drop)]
pub(crate) struct Inits<'a, R: Wait, F: Waits<Bell, Claimed<V, C>>, V, C: Claim<T, V, G>, T, G> {
    awaited: Initialising<'a, R, F, V, C, T, G, Computes<'a, T>>,
}

impl<'a, R: Wait, F: Waits<Bell, Claimed<V, C>>, V: Drop, C: Claim<T, V, G>, T: Copy, G: End> Future
    for Inits<'a, R, F, V, C, T, G> {
    type Output = ();

    ghost can_poll = { λ i. IfNone i.awaited.claim (IsSomeAnd i.awaited.turn.wait F.can_poll) };

    fn poll(&mut self, cx: &mut Context<'_>) -> Poll<()> {
        match self.awaited.poll(cx) {
            Poll::Ready(_) => Poll::Ready(()),
            Poll::Pending => Poll::Pending,
        }
    }
}

/// One that was never polled: it waits for a claim, or computes the value in two polls.
pub(crate) fn computing<
    'a,
    R: Wait + AllocGlobal + Abort,
    F: Waits<Bell, Claimed<V, C>>,
    V,
    C: Claim<T, V, G>,
    T: Copy,
    G: End,
>(rt: &'a R, claiming: F, value: T, computed: &'a AtomicU64) -> Inits<'a, R, F, V, C, T, G>
    requires { F.can_poll claiming }
    ensures { (result.awaited.claim ≡ None) × IsSomeAnd result.awaited.turn.wait F.can_poll }
{
    let computes = Computes::new(value, computed);
    let awaited = initialise(rt, rt.alloc(), claiming, computes).expect(rt, "memory");
    Inits { awaited }
}

/// A task that takes messages until no more come.
#[derive(Drop)]
pub(crate) struct Drains<'a, S: Stream> {
    pub(crate) stream: S,
    pub(crate) taken: &'a AtomicU64,
}

impl<'a, M: Drop, S: Stream<Item = M>> Future for Drains<'a, S> {
    type Output = ();

    ghost can_poll = { λ d. S.can_poll d.stream };

    fn poll(&mut self, cx: &mut Context<'_>) -> Poll<()> {
        match self.stream.poll_next(cx) {
            Poll::Ready(Some(_)) => {
                self.taken.fetch_add(1, SeqCst);
                cx.yield_now()
            }
            Poll::Ready(None) => Poll::Ready(()),
            Poll::Pending => Poll::Pending,
        }
    }
}

/// A value that takes two polls, and is counted where it was computed.
#[derive(Drop)]
pub(crate) struct Computes<'a, T> {
    value: T,
    is_begun: bool,
    computed: &'a AtomicU64,
}

impl<'a, T: Drop> Computes<'a, T> {
    /// One that was never polled.
    pub(crate) fn new(value: T, computed: &'a AtomicU64) -> Self {
        Computes {
            value,
            is_begun: false,
            computed,
        }
    }
}

impl<'a, T: Copy> Future for Computes<'a, T> {
    type Output = Result<T, Never>;

    fn poll(&mut self, cx: &mut Context<'_>) -> Poll<Result<T, Never>> {
        if !self.is_begun {
            self.is_begun = true;
            return cx.yield_now();
        }
        self.computed.fetch_add(1, SeqCst);
        Poll::Ready(Ok(self.value))
    }
}
