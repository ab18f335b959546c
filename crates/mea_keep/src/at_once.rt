ghost use Rattle.std.specs.Prelude.{◌≡◌, Result};
ghost use Rattle.mea_sets.specs.Poll.{Ready};

use mea_base::Poll;
use mea_once_core::{Init, Never};

/// An initialiser that calls a closure, and is ready with its value at the first poll.
#[derive(Drop)]
pub struct AtOnce<F> {
    compute: F,
}

/// An initialiser that calls a closure, and is ready with its value or its error at the first poll.
#[derive(Drop)]
pub struct TryAtOnce<F> {
    compute: F,
}

impl<F> AtOnce<F> {
    /// An initialiser of this closure. It takes no memory.
    pub fn new(compute: F) -> Self
        ensures { result.compute ≡ compute }
    {
        AtOnce { compute }
    }
}

impl<F> TryAtOnce<F> {
    /// An initialiser of this closure. It takes no memory.
    pub fn new(compute: F) -> Self
        ensures { result.compute ≡ compute }
    {
        TryAtOnce { compute }
    }
}

impl<T, W: Drop, F: FnMut() -> T> Init<T, Never, W> for AtOnce<F> {
    ghost use Rattle.std.specs.Prelude.{Ok};

    ghost may_poll = { λ init. F.IsAlwaysCallable init.compute };

    ghost answers = { λ before waker answer after. (value : T) × (answer ≡ Ready (Ok value)) × F.step before.compute value after.compute };

    fn poll(&mut self, _waker: W) -> Poll<Result<T, Never>> {
        Poll::Ready(Ok((self.compute)()))
    }
}

impl<T, E, W: Drop, F: FnMut() -> Result<T, E>> Init<T, E, W> for TryAtOnce<F> {
    ghost may_poll = { λ init. F.IsAlwaysCallable init.compute };

    ghost answers = { λ before waker answer after. (value : Result T E) × (answer ≡ Ready value) × F.step before.compute value after.compute };

    fn poll(&mut self, _waker: W) -> Poll<Result<T, E>> {
        Poll::Ready((self.compute)())
    }
}
