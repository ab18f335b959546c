//! A wait group that threads and tasks share: `mea::waitgroup`.
use mea_base::{NoMemory, Poll, Wake};
use mea_meet_seats::CountSeats;
use mea_sets::Place;
use mea_wait::{End, HandleFault, PollFault, Polled, Unpolled, Waits, hand_out};
use std::alloc::Global;
use std::sync;
use std::sync::{Arc, Mutex};

/// A handle of a group, which those who wait for the group wait for. It must be ended. It ports
/// `mea::waitgroup::WaitGroup`.
pub struct WaitGroup<W> {
    group: Arc<Mutex<CountSeats<W>>>,
}

/// A wait until no handle of the group is left. It must be polled to its end, or ended; ended, it leaves nothing
/// behind. It ports the future of `mea::waitgroup::WaitGroup`.
pub struct Wait<W> {
    group: Arc<Mutex<CountSeats<W>>>,
    place: Option<Place>,
}

impl<W: Wake> WaitGroup<W> {
    /// The first handle of a new group. It takes the memory that all handles share.
    pub fn new(alloc: Global) -> Result<Self, NoMemory> {
        let group = Arc::new(alloc, Mutex::new(CountSeats::new(alloc, 1)))?;
        Ok(WaitGroup { group })
    }

    /// A further handle. It is refused where there are 4294967295, and where no further share can be had; then nothing has
    /// changed.
    pub fn clone_handle<R: sync::Wait>(&self, rt: &R) -> Result<Self, HandleFault> {
        let group = Arc::try_clone(&self.group)?;
        let added = group.lock(rt).increment();
        added?;
        Ok(WaitGroup { group })
    }

    /// Ends the handle, and waits for the others. It takes no memory.
    pub fn into_future<R: sync::Wait>(self, rt: &R) -> Wait<W> {
        let WaitGroup { group } = self;
        let made = group.lock(rt).decrement(1);
        hand_out(made, || group.lock(rt).next_wake());
        Wait { group, place: None }
    }
}

impl<W: Wake> Wait<W> {
    /// A further wait for the same group. A further share of it may be refused.
    pub fn clone_wait(&self) -> Result<Self, NoMemory> {
        Ok(Wait {
            group: Arc::try_clone(&self.group)?,
            place: None,
        })
    }
}

impl<W: Wake> End for WaitGroup<W> {
    fn end<R: sync::Wait>(self, rt: &R) {
        let WaitGroup { group } = self;
        let made = group.lock(rt).decrement(1);
        hand_out(made, || group.lock(rt).next_wake());
    }
}

impl<W: Wake> End for Wait<W> {
    fn end<R: sync::Wait>(self, rt: &R) {
        let Wait { group, place } = self;
        group.lock(rt).withdraw(place);
    }
}

impl<W: Wake> Waits<W, ()> for Wait<W> {
    fn poll<R: sync::Wait>(self, rt: &R, waker: W) -> Result<Polled<Self, ()>, Unpolled<Self, W>> {
        let Wait { group, mut place } = self;
        let answer = group.lock(rt).poll(&mut place, waker);
        match answer {
            Ok(Poll::Ready(())) => Ok(Polled::Ready(())),
            Ok(Poll::Pending) => Ok(Polled::Pending(Wait { group, place })),
            Err((seat, NoMemory)) => Err(Unpolled {
                future: Wait { group, place },
                waker: seat.waker(),
                fault: PollFault::NoMemory,
            }),
        }
    }
}
