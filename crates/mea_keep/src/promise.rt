ghost use Rattle.std.specs.Prelude.{◌≡◌};

use mea_base::Poll;
use mea_once_core::{Init, Never};

// What stands for a caller's initialiser under the lock: it is pending until its value was put, and hands the waker of its
// poll over, since whoever computes does it with no lock held. A core whose calls have it keeps wakers that may be none:
// the poll by which a value is given has none.
pub struct Promise<V, W> {
    value: Option<V>,
    waker: Option<W>,
}

// Written out: a derived one is proved anew in each crate that hands a value of this type to a generic function.
impl<V: Drop, W: Drop> Drop for Promise<V, W> {
    fn drop(self) {
        let Promise { value: _, waker: _ } = self;
    }
}

impl<V: Drop, W: Drop> Promise<V, W> {
    ghost use Rattle.std.specs.Prelude.{Some, None};

    // One without its value.
    pub(crate) fn new() -> Self
        ensures { result ≡ record { value = None; waker = None } }
    {
        Promise {
            value: None,
            waker: None,
        }
    }

    // Puts the value: the next poll is ready with it.
    pub(crate) fn put(&mut self, value: V)
        ensures { self.new ≡ record self.old { value = Some value } }
    {
        self.value = Some(value);
    }

    // Takes the value back, where it was not given.
    pub(crate) fn take(&mut self) -> Option<V>
        ensures value { result ≡ self.old.value }
        ensures rest { self.new ≡ record self.old { value = None } }
    {
        self.value.take()
    }

    // The waker of the poll that asked for the value, which is the caller's turn.
    pub(crate) fn take_waker(&mut self) -> Option<W>
        ensures waker { result ≡ self.old.waker }
        ensures rest { self.new ≡ record self.old { waker = None } }
    {
        self.waker.take()
    }
}

impl<V: Drop, W: Drop> Init<V, Never, Option<W>> for Promise<V, W> {
    ghost use Rattle.mea_keep.specs.Promise.{Promises};

    ghost answers = { λ before waker answer after. Promises before waker answer after };

    fn poll(&mut self, waker: Option<W>) -> Poll<Result<V, Never>> {
        match self.value.take() {
            Some(value) => Poll::Ready(Ok(value)),
            None => {
                self.waker = waker;
                Poll::Pending
            }
        }
    }
}
