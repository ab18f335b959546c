ghost use Rattle.std.specs.Prelude.{IsOk};

use crate::claim::{Claim, Claimed, Claiming, ReadyValue, Step, told};
use crate::once::call::{Calls, Once, steps};
use crate::promise::Promise;
use mea_base::{NoMemory, Poll, Wake};
use mea_once_core::InitCall;
use mea_sets::Place;
use mea_wait::{End, Holds, PollFault, Polled, Unpolled, Waits, hand_out};
use std::sync::Wait;

/// A wait until a call has completed, or for the turn to make it. It must be polled to its end, or ended.
pub struct CallClaiming<H, W> {
    of: H,
    call: InitCall<Promise<(), W>>,
}

/// The turn to make the call that runs once. It must be spent: by `finish`, once the call was made, or by `end`, which
/// passes the turn on.
pub struct CallClaim<H, W> {
    of: H,
    call: InitCall<Promise<(), W>>,
}

/// The future of `Once::claim`.
pub type OnceClaiming<'a, W> = CallClaiming<&'a Once<W>, W>;

/// What `Once::claim` gives where no call has completed: it must be spent.
pub type OnceClaim<'a, W> = CallClaim<&'a Once<W>, W>;

/// A wait until a call has completed: the future of `Once::wait`. It must be polled to its end, or ended; ended, it
/// leaves nothing behind.
pub struct OnceWait<'a, W> {
    of: &'a Once<W>,
    place: Option<Place>,
}

impl<W: Wake, H: Holds<Once<W>>> CallClaiming<H, W> {
    // A wait that was never polled.
    pub(super) fn of(of: H) -> Self {
        CallClaiming {
            of,
            call: InitCall::new(Promise::new()),
        }
    }
}

impl<'a, W: Wake> OnceWait<'a, W> {
    // A wait that was never polled.
    pub(super) fn of(of: &'a Once<W>) -> Self {
        OnceWait { of, place: None }
    }
}

impl<W: Wake> Once<W> {
    // Polls a call whose promise was kept.
    fn complete<R: Wait>(
        &self,
        rt: &R,
        call: &mut InitCall<Promise<(), W>>,
    ) -> (Result<Poll<()>, (Option<W>, NoMemory)>, usize, usize) {
        let mut calls = self.calls.lock(rt);
        let Calls { core, done } = &mut *calls;
        steps::finish(core, done, call)
    }

    // Ends a call.
    fn abandon<R: Wait>(&self, rt: &R, call: InitCall<Promise<(), W>>) {
        let made = steps::end(&mut self.calls.lock(rt).core, call);
        self.wake(rt, made);
    }
}

impl<W: Wake, H: Holds<Once<W>>> End for CallClaiming<H, W> {
    fn end<R: Wait>(self, rt: &R) {
        let CallClaiming { of, call } = self;
        of.held().abandon(rt, call);
    }
}

impl<W: Wake, H: Holds<Once<W>>> End for CallClaim<H, W> {
    fn end<R: Wait>(self, rt: &R) {
        let CallClaim { of, call } = self;
        of.held().abandon(rt, call);
    }
}

impl<'a, W: Wake> End for OnceWait<'a, W> {
    fn end<R: Wait>(self, rt: &R) {
        let OnceWait { of, place } = self;
        of.calls.lock(rt).done.withdraw(place);
    }
}

impl<W: Wake, H: Holds<Once<W>>> CallClaim<H, W> {
    /// Tells that the call was made: all who wait for it are woken, and then the next caller. It takes no memory.
    pub fn finish<R: Wait>(self, rt: &R) {
        let CallClaim { of, mut call } = self;
        call.init.put(());
        let (answer, made, woken) = of.held().complete(rt, &mut call);
        hand_out(woken, || of.held().calls.lock(rt).done.next_wake());
        of.held().wake(rt, made);
        match answer {
            Ok(Poll::Ready(())) => {}
            // No turn is lost while its claim is there.
            Ok(Poll::Pending) | Err(_) => of.held().abandon(rt, call),
        }
    }
}

impl<W: Wake, H: Holds<Once<W>>> Claim<(), (), ReadyValue<()>> for CallClaim<H, W> {
    fn finish<R: Wait>(self, rt: &R, _value: ()) -> Result<(), ReadyValue<()>>
        ensures { IsOk result }
    {
        CallClaim::finish(self, rt);
        Ok(())
    }
}

impl<W: Wake, H: Holds<Once<W>>> Claiming<W, (), CallClaim<H, W>> for CallClaiming<H, W> {
    fn poll_claim<R: Wait>(self, rt: &R, waker: W) -> Step<Self, CallClaim<H, W>, (), W> {
        let CallClaiming { of, mut call } = self;
        let (answer, made) = steps::poll(
            &mut of.held().calls.lock(rt).core,
            &mut call,
            Some(waker),
        );
        of.held().wake(rt, made);
        match answer {
            Ok(Poll::Ready(())) => Step::There(()),
            Ok(Poll::Pending) => match call.init.take_waker() {
                Some(waker) => Step::Mine(CallClaim { of, call }, waker),
                None => Step::Pending(CallClaiming { of, call }),
            },
            Err((waker, NoMemory)) => Step::Refused(CallClaiming { of, call }, waker),
        }
    }
}

impl<W: Wake, H: Holds<Once<W>>> Waits<W, Claimed<(), CallClaim<H, W>>> for CallClaiming<H, W> {
    fn poll<R: Wait>(
        self,
        rt: &R,
        waker: W,
    ) -> Result<Polled<Self, Claimed<(), CallClaim<H, W>>>, Unpolled<Self, W>> {
        told(self.poll_claim(rt, waker))
    }
}

impl<'a, W: Wake> Waits<W, ()> for OnceWait<'a, W> {
    fn poll<R: Wait>(self, rt: &R, waker: W) -> Result<Polled<Self, ()>, Unpolled<Self, W>> {
        let OnceWait { of, mut place } = self;
        let answer = of.calls.lock(rt).done.poll(&mut place, waker);
        match answer {
            Ok(Poll::Ready(())) => Ok(Polled::Ready(())),
            Ok(Poll::Pending) => Ok(Polled::Pending(OnceWait { of, place })),
            Err((seat, NoMemory)) => Err(Unpolled {
                future: OnceWait { of, place },
                waker: seat.waker(),
                fault: PollFault::NoMemory,
            }),
        }
    }
}
