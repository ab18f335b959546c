ghost use Rattle.std.specs.Prelude.{◌≡◌, None};

use mea_sets::Place;
use std::marker::{Model, PhantomData};

/// The future of a wait for the end of a count, at a meeting point of kind `K`. It may be polled anew after
/// it was ready.
///
/// It may be dropped without its ending call: its waker stays with its meeting point either way.
#[derive(Debug, PartialEq, Eq)]
pub struct CountdownWait<K> {
    pub(crate) slot: Option<Place>,
    kind: PhantomData<K>,
}

impl<K> Model for CountdownWait<K> {
    ghost use Rattle.std.specs.Prelude.{Option};
    ghost use Rattle.mea_sets.specs.declared.place.Place.{Place};

    ghost Value = { Option Place };

    ghost view = { λ w. w.slot };

    ghost inverse = { λ slot. record { slot = slot; kind = record {} } };
}

// Written out: a derive asks the kind to be `Drop`, of which the wait holds none.
impl<K> Drop for CountdownWait<K> {
    fn drop(self) {
        let CountdownWait { slot: _, kind: _ } = self;
    }
}

impl<K> CountdownWait<K> {
    /// A wait that was never polled. It takes no memory.
    pub fn new() -> Self
        ensures { result ≡ None }
    {
        CountdownWait {
            slot: None,
            kind: PhantomData,
        }
    }

    /// Makes it one that was never polled. It takes no memory.
    pub fn renew(&mut self)
        ensures { self.new ≡ None }
    {
        self.slot = None;
    }
}
