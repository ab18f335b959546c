ghost use Rattle.std.specs.Prelude.{◌≡◌};
ghost use Rattle.mea_wait.specs.Polls.{IsPollable, IsRefusedFor};
ghost use Rattle.mea_keep.specs.Computing.{MayGoOn};

use crate::claim::{Claim, Claiming, Step};
use mea_base::Poll;
use mea_once_core::{Init, Never};
use mea_wait::{End, PollFault, Polled, Unpolled, Waits};
use std::marker::PhantomData;
use std::sync::Wait;

/// A wait for a value, with the initialiser that computes it when it is this wait's turn. It must be polled to its end, or
/// ended. The initialiser is polled with no lock held.
pub struct Computing<F, C, G, I, T, E> {
    stage: ComputingStage<F, C, G>,
    init: I,
    kind: PhantomData<(T, E)>,
}

/// How far such a wait is.
pub enum ComputingStage<F, C, G> {
    /// It waits for the value or its turn.
    Waits(F),
    /// It has its turn.
    Computes(C),
    /// It has computed, and the value could not be kept or cloned for want of memory.
    Keeps(G),
}

impl<F, C, G, I, T, E> Computing<F, C, G, I, T, E> {
    // A wait that was never polled.
    pub(crate) fn of(wait: F, init: I) -> Self
        ensures init { result.init ≡ init }
        ensures stage { result.stage ≡ ComputingStage.Waits wait }
    {
        Computing {
            stage: ComputingStage::Waits(wait),
            init,
            kind: PhantomData,
        }
    }

    // The same at another stage.
    fn at(stage: ComputingStage<F, C, G>, init: I) -> Self
        ensures init { result.init ≡ init }
        ensures stage { result.stage ≡ stage }
    {
        Computing {
            stage,
            init,
            kind: PhantomData,
        }
    }
}

impl<F: End, C: End, G: End, I: Drop, T, E> End for Computing<F, C, G, I, T, E> {
    fn end<R: Wait>(self, rt: &R) {
        let Computing {
            stage,
            init: _,
            kind: _,
        } = self;
        match stage {
            ComputingStage::Waits(wait) => wait.end(rt),
            ComputingStage::Computes(claim) => claim.end(rt),
            ComputingStage::Keeps(kept) => kept.end(rt),
        }
    }
}

// Polls the initialiser of who has the turn, and gives its value.
fn compute<R: Wait, F, C: Claim<T, V, G>, G, I: Init<T, E, W> + Drop, T, E, V, W>(
    rt: &R,
    claim: C,
    init: I,
    waker: W,
) -> Result<
    Polled<Computing<F, C, G, I, T, E>, Result<V, E>>,
    Unpolled<Computing<F, C, G, I, T, E>, W>,
>
    requires { I.may_poll init }
    ensures again { IsPollable (λ f. MayGoOn I.may_poll f.stage f.init) result }
    ensures fault { IsRefusedFor (λ fault. fault ≡ PollFault.NoMemory) result }
{
    let mut init = init;
    match init.poll(waker) {
        Poll::Pending => Ok(Polled::Pending(Computing::at(ComputingStage::Computes(claim), init))),
        Poll::Ready(Ok(value)) => match claim.finish(rt, value) {
            Ok(value) => Ok(Polled::Ready(Ok(value))),
            Err(kept) => Err(Unpolled {
                future: Computing::at(ComputingStage::Keeps(kept), init),
                waker: None,
                fault: PollFault::NoMemory,
            }),
        },
        Poll::Ready(Err(e)) => {
            claim.end(rt);
            Ok(Polled::Ready(Err(e)))
        }
    }
}

impl<
    F: Claiming<W, V, C>,
    C: Claim<T, V, G>,
    G: Claiming<W, V, Never>,
    I: Init<T, E, W> + Drop,
    T,
    E,
    V,
    W: Drop,
> Waits<W, Result<V, E>> for Computing<F, C, G, I, T, E> {
    ghost can_poll = { λ f. MayGoOn I.may_poll f.stage f.init };

    fn poll<R: Wait>(
        self,
        rt: &R,
        waker: W,
    ) -> Result<Polled<Self, Result<V, E>>, Unpolled<Self, W>> {
        let Computing {
            stage,
            init,
            kind: _,
        } = self;
        match stage {
            ComputingStage::Waits(wait) => match wait.poll_claim(rt, waker) {
                Step::There(value) => Ok(Polled::Ready(Ok(value))),
                Step::Mine(claim, waker) => compute(rt, claim, init, waker),
                Step::Pending(wait) => Ok(Polled::Pending(Computing::at(
                    ComputingStage::Waits(wait),
                    init,
                ))),
                Step::Refused(wait, waker) => Err(Unpolled {
                    future: Computing::at(ComputingStage::Waits(wait), init),
                    waker,
                    fault: PollFault::NoMemory,
                }),
            },
            ComputingStage::Computes(claim) => compute(rt, claim, init, waker),
            ComputingStage::Keeps(kept) => match kept.poll_claim(rt, waker) {
                Step::There(value) => Ok(Polled::Ready(Ok(value))),
                Step::Mine(never, _) => match never {},
                Step::Pending(kept) => Ok(Polled::Pending(Computing::at(
                    ComputingStage::Keeps(kept),
                    init,
                ))),
                Step::Refused(kept, waker) => Err(Unpolled {
                    future: Computing::at(ComputingStage::Keeps(kept), init),
                    waker,
                    fault: PollFault::NoMemory,
                }),
            },
        }
    }
}
