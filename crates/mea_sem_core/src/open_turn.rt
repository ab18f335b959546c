ghost use Rattle.std.specs.Prelude.{◌≡◌};

use mea_base::Turn;

/// What a poll of a semaphore answers that may be closed: ready or closed, with the waker handed back, or
/// pending, with the waker kept.
#[derive(Debug, PartialEq, Eq, Drop)]
pub enum OpenTurn<W> {
    Ready(W),
    Pending,
    Closed(W),
}

impl<W> From<Turn<W>> for OpenTurn<W> {
    ghost use Rattle.mea_sem_core.specs.OpenTurn.{as_open};

    ghost from_gives = { λ turn result. result ≡ as_open turn };

    fn from(turn: Turn<W>) -> Self {
        match turn {
            Turn::Ready(waker) => OpenTurn::Ready(waker),
            Turn::Pending => OpenTurn::Pending,
        }
    }
}
