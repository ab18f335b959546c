ghost use Rattle.std.specs.Prelude.{◌≡◌, Some, None, IsSomeAnd, IfNone, IfOk, MatchOption};

use crate::bell::Bell;
use crate::waiting::{Waiting, wait};
use futures::task::{Context, Poll};
use futures::{Future, ready};
use mea_base::NoMemory;
use mea_keep::{Claim, Claimed};
use mea_wait::{End, Kept, PollFault, Waits};
use std::alloc::Global;
use std::marker::PhantomData;
use std::sync::Wait;

/// A wait for a value that is computed once, with a future of the caller's that computes it where it is this one's turn: of
/// a cell, a map, a group or a call that runs once, by the wait that their `claim` gives.
///
/// The future is polled with no lock held, and by one of those who wait at a time. To drop this passes the turn on, as does
/// an error of the future. Where there is no memory to keep the value, it is dropped, and the turn goes on.
#[derive(Drop)]
pub struct Initialising<'a, R: Wait, F: Waits<Bell, Claimed<V, C>>, V, C: Claim<T, V, G>, T, G, A> {
    rt: &'a R,
    turn: Waiting<'a, R, F, Claimed<V, C>>,
    // The turn, once it has come.
    claim: Option<Kept<'a, R, C>>,
    init: A,
    kind: PhantomData<(T, G)>,
}

/// Makes a future of a wait for a claim and of one that computes the value. It takes memory for the bell; where there is none,
/// both are ended.
pub fn initialise<
    'a,
    R: Wait,
    F: Waits<Bell, Claimed<V, C>>,
    V,
    C: Claim<T, V, G>,
    T,
    G,
    E,
    A: Future<Output = Result<T, E>>,
>(
    rt: &'a R,
    alloc: Global,
    claiming: F,
    init: A,
) -> Result<Initialising<'a, R, F, V, C, T, G, A>, NoMemory>
    requires claiming { F.can_poll claiming }
    requires init { A.can_poll init }
    ensures { IfOk result (λ i. (i.init ≡ init) × (i.claim ≡ None) × (i.turn.wait ≡ Some claiming)) }
{
    let turn = wait(rt, alloc, claiming)?;
    Ok(Initialising {
        rt,
        turn,
        claim: None,
        init,
        kind: PhantomData,
    })
}

// Gives the value of who has the turn.
fn finish<R: Wait, T, V, G: End, C: Claim<T, V, G>>(
    rt: &R,
    claim: C,
    value: T,
) -> Result<V, PollFault> {
    match claim.finish(rt, value) {
        Ok(value) => Ok(value),
        Err(kept) => {
            kept.end(rt);
            Err(PollFault::NoMemory)
        }
    }
}

impl<
    'a,
    R: Wait,
    F: Waits<Bell, Claimed<V, C>>,
    V,
    C: Claim<T, V, G>,
    T,
    G: End,
    E,
    A: Future<Output = Result<T, E>>,
> Future for Initialising<'a, R, F, V, C, T, G, A> {
    type Output = Result<Result<V, E>, PollFault>;

    ghost can_poll = { λ i. A.can_poll i.init × IfNone i.claim (IsSomeAnd i.turn.wait F.can_poll) };

    ghost needs = { λ i s. MatchOption i.claim (s ≡ i.turn.rung.id) (λ _. A.needs i.init s) };

    fn poll(&mut self, cx: &mut Context<'_>) -> Poll<Result<Result<V, E>, PollFault>> {
        if self.claim.is_none() {
            match ready!(self.turn.poll(cx)) {
                Ok(Claimed::There(value)) => return Poll::Ready(Ok(Ok(value))),
                Ok(Claimed::Mine(claim)) => self.claim = Some(Kept::new(self.rt, claim)),
                Err(fault) => return Poll::Ready(Err(fault)),
            }
        }
        let answer = ready!(self.init.poll(cx));
        let Some(claim) = self.claim.take() else {
            unreachable!()
        };
        match answer {
            Ok(value) => match finish(self.rt, claim.into_inner(), value) {
                Ok(value) => Poll::Ready(Ok(Ok(value))),
                Err(fault) => Poll::Ready(Err(fault)),
            },
            // The turn goes on where the claim is dropped.
            Err(e) => Poll::Ready(Ok(Err(e))),
        }
    }
}
