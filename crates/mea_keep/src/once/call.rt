mod steps;
mod waits;

use crate::claim::ReadyValue;
use crate::computing::Computing;
use crate::unfailing::Unfailing;
use mea_base::Wake;
use mea_meet_seats::CountSeats;
use mea_once_core::{Init, Never, OnceCore};
use mea_wait::hand_out;
use std::alloc::Global;
use std::sync::{Mutex, Wait};
pub use waits::{CallClaim, CallClaiming, OnceClaim, OnceClaiming, OnceWait};

/// A call that runs once, and that others wait for. It ports `mea::once::Once`.
pub struct Once<W> {
    calls: Mutex<Calls<W>>,
}

// Written out: a derived one is proved anew in each crate that hands a value of this type to a generic function.
impl<W: Drop> Drop for Once<W> {
    fn drop(self) {
        let Once { calls: _ } = self;
    }
}

/// The calls, and a latch for those who wait for one to complete.
#[derive(Drop)]
struct Calls<W> {
    core: OnceCore<Option<W>>,
    done: CountSeats<W>,
}

/// The future of `Once::call_once`.
pub type OnceCall<'a, I, W> = Unfailing<
    Computing<OnceClaiming<'a, W>, OnceClaim<'a, W>, ReadyValue<()>, I, (), Never>,
>;

impl<W: Wake> Once<W> {
    ghost use Rattle.std.specs.Prelude.{◌≡◌};

    /// One that nobody has called. It takes no memory.
    pub fn new(alloc: Global) -> Self {
        Once {
            calls: Mutex::new(Calls {
                core: OnceCore::new(alloc),
                done: CountSeats::new(alloc, 1),
            }),
        }
    }

    /// Whether a call had completed a moment ago. It takes no memory.
    pub fn is_completed<R: Wait>(&self, rt: &R) -> bool {
        self.calls.lock(rt).core.is_completed()
    }

    /// A wait until a call has completed, which runs the initialiser where no other does. It takes no memory before its
    /// first poll.
    pub fn call_once<I: Init<(), Never, W>>(&self, init: I) -> OnceCall<'_, I, W>
        ensures { result.wait.init ≡ init }
    {
        Unfailing::of(Computing::of(CallClaiming::of(self), init))
    }

    /// A wait until a call has completed, or for the turn to make it. It takes no memory before its first poll.
    pub fn claim(&self) -> OnceClaiming<'_, W> {
        CallClaiming::of(self)
    }

    /// A wait until a call has completed. It takes no memory before its first poll.
    pub fn wait(&self) -> OnceWait<'_, W> {
        OnceWait::of(self)
    }

    // Wakes as many as the step before has made ready.
    fn wake<R: Wait>(&self, rt: &R, made: usize) {
        hand_out(made, || self.calls.lock(rt).core.next_wake()?);
    }
}
