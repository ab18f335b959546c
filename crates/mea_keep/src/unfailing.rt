ghost use Rattle.std.specs.Prelude.{◌≡◌};

use mea_once_core::Never;
use mea_wait::{End, Polled, Unpolled, Waits};
use std::sync::Wait;

/// A wait whose initialiser has no error. It must be polled to its end, or ended.
pub struct Unfailing<F> {
    wait: F,
}

impl<F> Unfailing<F> {
    // A wait of this kind.
    pub(crate) fn of(wait: F) -> Self
        ensures { result.wait ≡ wait }
    {
        Unfailing { wait }
    }
}

impl<F: End> End for Unfailing<F> {
    fn end<R: Wait>(self, rt: &R) {
        let Unfailing { wait } = self;
        wait.end(rt);
    }
}

impl<F: Waits<W, Result<V, Never>>, V, W> Waits<W, V> for Unfailing<F> {
    ghost can_poll = { λ u. F.can_poll u.wait };

    ghost refuses = { F.refuses };

    ghost hands_back = { F.hands_back };

    fn poll<R: Wait>(self, rt: &R, waker: W) -> Result<Polled<Self, V>, Unpolled<Self, W>> {
        let Unfailing { wait } = self;
        match wait.poll(rt, waker) {
            Ok(Polled::Ready(Ok(value))) => Ok(Polled::Ready(value)),
            Ok(Polled::Ready(Err(never))) => match never {},
            Ok(Polled::Pending(wait)) => Ok(Polled::Pending(Unfailing { wait })),
            Err(
                Unpolled {
                    future,
                    waker,
                    fault,
                },
            ) => Err(Unpolled {
                future: Unfailing { wait: future },
                waker,
                fault,
            }),
        }
    }
}
