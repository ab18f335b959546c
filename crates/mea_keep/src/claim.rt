ghost use Rattle.std.specs.Prelude.{◌≡◌};
ghost use Rattle.mea_wait.specs.Polls.{IsRefusedFor};

use mea_wait::{End, PollFault, Polled, Unpolled};
use std::sync::Wait;

/// What a wait for a claim gives.
pub enum Claimed<V, C> {
    /// The value, which is there.
    There(V),
    /// The turn to compute it, which must be spent.
    Mine(C),
}

/// The turn to compute a value. It must be spent: by `finish`, with the value, or by `end`, which passes the turn to the
/// next that waits for it. No lock is held meanwhile.
///
/// T is the value that is given, V what the caller has of it, and G the wait that comes back where there is no memory.
pub trait Claim<T, V, G>: End {
    /// Gives the value, and wakes the next that waits for it. Where there is no memory to keep or to clone it, a wait
    /// comes back that has it and tries again.
    fn finish<R: Wait>(self, rt: &R, value: T) -> Result<V, G>;
}

/// What one poll of a wait for a claim came to.
pub enum Step<F, C, V, W> {
    /// The value is there.
    There(V),
    /// It is the caller's turn; the waker was not used.
    Mine(C, W),
    /// Another computes, and the waker is kept.
    Pending(F),
    /// There is no memory; the waker comes back where the poll had not used it up.
    Refused(F, Option<W>),
}

/// A wait for a value, or for the turn to compute it.
pub trait Claiming<W, V, C>: End {
    /// Polls it, and hands an unused waker back.
    fn poll_claim<R: Wait>(self, rt: &R, waker: W) -> Step<Self, C, V, W>;
}

/// A wait whose value is there, so that its first poll gives it, as `std::future::Ready` does. It is the wait that stands
/// for want of memory where to give a value takes none: no call makes one.
#[derive(Drop)]
pub struct ReadyValue<V> {
    value: V,
}

impl<V: Drop> End for ReadyValue<V> {
    fn end<R: Wait>(self, _rt: &R) {}
}

impl<W: Drop, V: Drop, C> Claiming<W, V, C> for ReadyValue<V> {
    fn poll_claim<R: Wait>(self, _rt: &R, _waker: W) -> Step<Self, C, V, W> {
        Step::There(self.value)
    }
}

// What a wait tells of one poll; an unused waker is dropped.
pub(crate) fn told<F, C, V, W: Drop>(
    step: Step<F, C, V, W>,
) -> Result<Polled<F, Claimed<V, C>>, Unpolled<F, W>>
    ensures { IsRefusedFor (λ fault. fault ≡ PollFault.NoMemory) result }
{
    match step {
        Step::There(value) => Ok(Polled::Ready(Claimed::There(value))),
        Step::Mine(claim, _) => Ok(Polled::Ready(Claimed::Mine(claim))),
        Step::Pending(wait) => Ok(Polled::Pending(wait)),
        Step::Refused(future, waker) => Err(Unpolled {
            future,
            waker,
            fault: PollFault::NoMemory,
        }),
    }
}
