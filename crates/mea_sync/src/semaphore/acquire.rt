ghost use Rattle.std.specs.Prelude.{◌≡◌, IfOk};
ghost use Rattle.mea_sem_core.specs.Acquire.{demand_of};

use crate::semaphore::permit::Permit;
use crate::semaphore::{Closed, Semaphore, steps};
use mea_base::{NoMemory, Wake};
use mea_sem_core::{Acquire as Place, OpenTurn};
use mea_wait::{End, Holds, Polled, Unpolled, Waits};
use std::marker::PhantomData;
use std::sync::{Arc, Wait};

/// A wait for permits, which gives them as a permit, or `Closed` where the semaphore was closed first. It
/// must be polled to its end, or ended. `permits_wanted` says in contracts how many permits it asks for.
pub struct AcquireToHold<H, W> {
    of: H,
    permits: usize,
    place: Place,
    waker: PhantomData<W>,
    ghost asks: { demand_of place ≡ permits },
}

/// A wait for permits that are gone for ever once they are granted. It must be polled to its end, or ended.
/// `permits_to_forget` says in contracts how many permits it asks for.
pub struct AcquireToForget<H, W> {
    of: H,
    permits: usize,
    place: Place,
    waker: PhantomData<W>,
    ghost asks: { demand_of place ≡ permits },
}

/// The future of `Semaphore::acquire`.
pub type Acquire<'a, W> = AcquireToHold<&'a Semaphore<W>, W>;

/// The future of `Semaphore::acquire_owned`.
pub type OwnedAcquire<W> = AcquireToHold<Arc<Semaphore<W>>, W>;

/// The future of `Semaphore::acquire_and_forget`.
pub type AcquireForget<'a, W> = AcquireToForget<&'a Semaphore<W>, W>;

/// The future of `Semaphore::acquire_owned_and_forget`.
pub type OwnedAcquireForget<W> = AcquireToForget<Arc<Semaphore<W>>, W>;

impl<W: Wake, H: Holds<Semaphore<W>>> AcquireToHold<H, W> {
    // A wait that was never polled.
    pub(super) fn of(of: H, permits: usize) -> Self
        ensures permits { result.permits ≡ permits }
        ensures of { result.of ≡ of }
    {
        AcquireToHold {
            of,
            permits,
            place: Place::new(permits),
            waker: PhantomData,
        }
    }
}

impl<W: Wake, H: Holds<Semaphore<W>>> AcquireToForget<H, W> {
    // A wait that was never polled.
    pub(super) fn of(of: H, permits: usize) -> Self
        ensures { result.permits ≡ permits }
    {
        AcquireToForget {
            of,
            permits,
            place: Place::new(permits),
            waker: PhantomData,
        }
    }
}

impl<W: Wake, H: Holds<Semaphore<W>>> End for AcquireToHold<H, W> {
    fn end<R: Wait>(self, rt: &R) {
        let AcquireToHold {
            of,
            permits: _,
            place,
            waker: _,
        } = self;
        of.held().cancel(rt, place);
    }
}

impl<W: Wake, H: Holds<Semaphore<W>>> End for AcquireToForget<H, W> {
    fn end<R: Wait>(self, rt: &R) {
        let AcquireToForget {
            of,
            permits: _,
            place,
            waker: _,
        } = self;
        of.held().cancel(rt, place);
    }
}

impl<W: Wake, H: Holds<Semaphore<W>>> Waits<W, Result<Permit<H, W>, Closed>>
    for AcquireToHold<H, W> {
    ghost gives = { λ a output. IfOk output (λ permit. (permit.permits ≡ a.permits) × (permit.of ≡ a.of)) };

    ghost hands_back = { λ given back. back ≡ given };

    fn poll<R: Wait>(
        self,
        rt: &R,
        waker: W,
    ) -> Result<Polled<Self, Result<Permit<H, W>, Closed>>, Unpolled<Self, W>> {
        let AcquireToHold {
            of,
            permits,
            mut place,
            waker: marker,
        } = self;
        let answer = steps::poll(&mut *of.held().core.lock(rt), &mut place, waker);
        match answer {
            Ok(OpenTurn::Ready(_)) => Ok(Polled::Ready(Ok(Permit::of(of, permits)))),
            Ok(OpenTurn::Pending) => Ok(Polled::Pending(AcquireToHold {
                of,
                permits,
                place,
                waker: marker,
            })),
            Ok(OpenTurn::Closed(_)) => Ok(Polled::Ready(Err(Closed))),
            Err((waker, NoMemory)) => Err(Unpolled::no_memory(
                AcquireToHold {
                    of,
                    permits,
                    place,
                    waker: marker,
                },
                waker,
            )),
        }
    }
}

impl<W: Wake, H: Holds<Semaphore<W>>> Waits<W, Result<(), Closed>> for AcquireToForget<H, W> {
    ghost hands_back = { λ given back. back ≡ given };

    fn poll<R: Wait>(
        self,
        rt: &R,
        waker: W,
    ) -> Result<Polled<Self, Result<(), Closed>>, Unpolled<Self, W>> {
        let AcquireToForget {
            of,
            permits,
            mut place,
            waker: marker,
        } = self;
        let answer = steps::poll_to_forget(
            &mut *of.held().core.lock(rt),
            permits,
            &mut place,
            waker,
        );
        match answer {
            Ok(OpenTurn::Ready(_)) => Ok(Polled::Ready(Ok(()))),
            Ok(OpenTurn::Pending) => Ok(Polled::Pending(AcquireToForget {
                of,
                permits,
                place,
                waker: marker,
            })),
            Ok(OpenTurn::Closed(_)) => Ok(Polled::Ready(Err(Closed))),
            Err((waker, NoMemory)) => Err(Unpolled::no_memory(
                AcquireToForget {
                    of,
                    permits,
                    place,
                    waker: marker,
                },
                waker,
            )),
        }
    }
}
