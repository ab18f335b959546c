use crate::shutdown::Shared;
use mea_base::{NoMemory, Poll, Wake};
use mea_sets::Place;
use mea_wait::{End, Holds, PollFault, Polled, Unpolled, Waits};
use std::marker::PhantomData;
use std::sync;
use std::sync::Arc;

/// A wait until the shutdown is asked for. It must be polled to its end, or ended; ended, it leaves nothing
/// behind.
pub struct SignalWait<H, W> {
    of: H,
    place: Option<Place>,
    waker: PhantomData<W>,
}

/// The future of `is_shutdown`.
pub type Signal<'a, W> = SignalWait<&'a Shared<W>, W>;

/// The future of `is_shutdown_owned`.
pub type OwnedSignal<W> = SignalWait<Arc<Shared<W>>, W>;

/// The future of `ShutdownSend::await_shutdown`. It must be polled to its end, or ended; ended, it leaves
/// nothing behind.
pub struct Wait<W> {
    shared: Arc<Shared<W>>,
    place: Option<Place>,
}

impl<W: Wake, H: Holds<Shared<W>>> SignalWait<H, W> {
    // A wait that was never polled.
    pub(super) fn of(of: H) -> Self {
        SignalWait {
            of,
            place: None,
            waker: PhantomData,
        }
    }
}

impl<W: Wake> Wait<W> {
    // A wait that was never polled.
    pub(super) fn of(shared: Arc<Shared<W>>) -> Self {
        Wait {
            shared,
            place: None,
        }
    }
}

impl<W: Wake, H: Holds<Shared<W>>> End for SignalWait<H, W> {
    fn end<R: sync::Wait>(self, rt: &R) {
        let SignalWait {
            of,
            place,
            waker: _,
        } = self;
        of.held().signal.lock(rt).withdraw(place);
    }
}

impl<W: Wake> End for Wait<W> {
    fn end<R: sync::Wait>(self, rt: &R) {
        let Wait { shared, place } = self;
        shared.receivers.lock(rt).withdraw(place);
    }
}

impl<W: Wake, H: Holds<Shared<W>>> Waits<W, ()> for SignalWait<H, W> {
    fn poll<R: sync::Wait>(self, rt: &R, waker: W) -> Result<Polled<Self, ()>, Unpolled<Self, W>> {
        let SignalWait {
            of,
            mut place,
            waker: kind,
        } = self;
        let answer = of.held().signal.lock(rt).poll(&mut place, waker);
        let waker = kind;
        match answer {
            Ok(Poll::Ready(())) => Ok(Polled::Ready(())),
            Ok(Poll::Pending) => Ok(Polled::Pending(SignalWait { of, place, waker })),
            Err((seat, NoMemory)) => Err(Unpolled {
                future: SignalWait { of, place, waker },
                waker: seat.waker(),
                fault: PollFault::NoMemory,
            }),
        }
    }
}

impl<W: Wake> Waits<W, ()> for Wait<W> {
    fn poll<R: sync::Wait>(self, rt: &R, waker: W) -> Result<Polled<Self, ()>, Unpolled<Self, W>> {
        let Wait { shared, mut place } = self;
        let answer = shared.receivers.lock(rt).poll(&mut place, waker);
        match answer {
            Ok(Poll::Ready(())) => Ok(Polled::Ready(())),
            Ok(Poll::Pending) => Ok(Polled::Pending(Wait { shared, place })),
            Err((seat, NoMemory)) => Err(Unpolled {
                future: Wait { shared, place },
                waker: seat.waker(),
                fault: PollFault::NoMemory,
            }),
        }
    }
}
