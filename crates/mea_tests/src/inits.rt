//! Initialisers that are ready at their first poll, without a closure.
use mea_base::Poll;
use mea_keep::{Init, Never};
use mea_test_support::Bell;

/// One that gives its number.
#[derive(Drop)]
pub(crate) struct Gives(pub(crate) u64);

impl Init<u64, Never, Bell> for Gives {
    ghost use Rattle.std.specs.Prelude.{⊤};

    ghost answers = { λ before waker answer after. ⊤ };

    fn poll(&mut self, _waker: Bell) -> Poll<Result<u64, Never>> {
        Poll::Ready(Ok(self.0))
    }
}

/// One that has the error 4.
#[derive(Drop)]
pub(crate) struct Fails;

impl Init<u64, u8, Bell> for Fails {
    ghost use Rattle.std.specs.Prelude.{⊤};

    ghost answers = { λ before waker answer after. ⊤ };

    fn poll(&mut self, _waker: Bell) -> Poll<Result<u64, u8>> {
        Poll::Ready(Err(4))
    }
}
