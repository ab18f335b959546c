//! A latch that threads and tasks share: `mea::latch`.
use mea_base::{NoMemory, Poll, Wake};
use mea_meet_seats::CountSeats;
use mea_sets::Place;
use mea_wait::{End, Holds, PollFault, Polled, Unpolled, Waits, hand_out};
use std::alloc::Global;
use std::marker::PhantomData;
use std::sync::{Arc, Mutex, Wait};

/// A count that falls to 0 and stays there. It ports `mea::latch::Latch`.
pub struct Latch<W> {
    core: Mutex<CountSeats<W>>,
}

// Written out: a derived one is proved anew in each crate that hands a value of this type to a generic function.
impl<W: Drop> Drop for Latch<W> {
    fn drop(self) {
        let Latch { core: _ } = self;
    }
}

/// A wait until a latch is at 0. It must be polled to its end, or ended; ended, it leaves nothing behind.
pub struct Opening<H, W> {
    of: H,
    place: Option<Place>,
    waker: PhantomData<W>,
}

/// The future of `Latch::wait`.
pub type LatchWait<'a, W> = Opening<&'a Latch<W>, W>;

/// The future of `Latch::wait_owned`.
pub type OwnedLatchWait<W> = Opening<Arc<Latch<W>>, W>;

impl<W: Wake> Latch<W> {
    /// A latch at this count. It takes no memory.
    pub fn new(alloc: Global, count: u32) -> Self {
        Latch {
            core: Mutex::new(CountSeats::new(alloc, count)),
        }
    }

    /// The count a moment ago. It takes no memory.
    pub fn count<R: Wait>(&self, rt: &R) -> u32 {
        self.core.lock(rt).count()
    }

    /// Takes one from the count, at the least to 0, and wakes all who wait where it reaches 0. It takes no
    /// memory.
    pub fn count_down<R: Wait>(&self, rt: &R) {
        self.arrive(rt, 1);
    }

    /// Takes `n` from the count, at the least to 0, and wakes all who wait where it reaches 0. It takes no
    /// memory.
    pub fn arrive<R: Wait>(&self, rt: &R, n: u32) {
        let made = self.core.lock(rt).decrement(n);
        hand_out(made, || self.core.lock(rt).next_wake());
    }

    /// Ok at 0, else the count. It takes no memory.
    pub fn try_wait<R: Wait>(&self, rt: &R) -> Result<(), u32> {
        self.core.lock(rt).try_wait()
    }

    /// A wait until the count is 0. It takes no memory.
    pub fn wait(&self) -> LatchWait<'_, W> {
        Opening::of(self)
    }

    /// `wait`, for one that owns a share of the latch. It takes no memory.
    pub fn wait_owned(self: Arc<Self>) -> OwnedLatchWait<W> {
        Opening::of(self)
    }
}

impl<W: Wake, H: Holds<Latch<W>>> Opening<H, W> {
    // A wait that was never polled.
    fn of(of: H) -> Self {
        Opening {
            of,
            place: None,
            waker: PhantomData,
        }
    }
}

impl<W: Wake, H: Holds<Latch<W>>> End for Opening<H, W> {
    fn end<R: Wait>(self, rt: &R) {
        let Opening {
            of,
            place,
            waker: _,
        } = self;
        of.held().core.lock(rt).withdraw(place);
    }
}

impl<W: Wake, H: Holds<Latch<W>>> Waits<W, ()> for Opening<H, W> {
    fn poll<R: Wait>(self, rt: &R, waker: W) -> Result<Polled<Self, ()>, Unpolled<Self, W>> {
        let Opening {
            of,
            mut place,
            waker: kind,
        } = self;
        let answer = of.held().core.lock(rt).poll(&mut place, waker);
        let waker = kind;
        match answer {
            Ok(Poll::Ready(())) => Ok(Polled::Ready(())),
            Ok(Poll::Pending) => Ok(Polled::Pending(Opening { of, place, waker })),
            Err((seat, NoMemory)) => Err(Unpolled {
                future: Opening { of, place, waker },
                waker: seat.waker(),
                fault: PollFault::NoMemory,
            }),
        }
    }
}
