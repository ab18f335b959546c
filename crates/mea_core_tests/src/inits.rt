ghost use Rattle.std.specs.Prelude.{Result};

use mea_base::Poll;
use mea_once_core::{Init, Never};

// An initialiser that is pending until it is settled, and keeps the waker that it was last polled with.
#[derive(Drop)]
pub(crate) struct Settling {
    result: Option<Result<u64, u64>>,
    waker: Option<u64>,
}

impl Settling {
    pub(crate) fn new() -> Self {
        Settling {
            result: None,
            waker: None,
        }
    }

    // Settles it, and tells the waker that is to be called.
    pub(crate) fn settle(&mut self, end: Result<u64, u64>) -> Option<u64> {
        self.result = Some(end);
        self.waker.take()
    }
}

impl Init<u64, u64, u64> for Settling {
    ghost answers = { λ _ _ _ _. Unit {0} };

    fn poll(&mut self, waker: u64) -> Poll<Result<u64, u64>> {
        match self.result.take() {
            Some(result) => Poll::Ready(result),
            None => {
                self.waker = Some(waker);
                Poll::Pending
            }
        }
    }
}

// The same, with nothing to tell.
#[derive(Drop)]
pub(crate) struct Finishing {
    pub(crate) finished: bool,
}

impl Init<(), Never, u64> for Finishing {
    ghost answers = { λ _ _ _ _. Unit {0} };

    fn poll(&mut self, _waker: u64) -> Poll<Result<(), Never>> {
        if self.finished {
            Poll::Ready(Ok(()))
        } else {
            Poll::Pending
        }
    }
}

// A closure that computes the value at the first poll.
#[derive(Drop)]
pub(crate) struct Computes<F> {
    pub(crate) compute: F,
}

impl<F: Fn() -> u64> Init<u64, u64, u64> for Computes<F> {
    ghost may_poll = { λ c. F.IsAlwaysCallable c.compute };

    ghost answers = { λ _ _ _ _. Unit {0} };

    fn poll(&mut self, _waker: u64) -> Poll<Result<u64, u64>> {
        Poll::Ready(Ok((self.compute)()))
    }
}
