ghost use Rattle.std.specs.Prelude.{◌≡◌, None};

use mea_sets::Place;
use std::marker::Model;

/// The future of a receive that may have to wait: its place among those that wait. It belongs to the channel that has
/// polled it, and may be polled anew after it was ready.
///
/// It may be dropped without its ending call: its waker stays with its channel either way. It is the state of the
/// future of `mea::broadcast::overflow::Receiver::recv`.
#[derive(Debug, PartialEq, Eq, Drop)]
pub struct RecvWait {
    pub(crate) slot: Option<Place>,
}

impl Model for RecvWait {
    ghost use Rattle.std.specs.Prelude.{Option};
    ghost use Rattle.mea_sets.specs.declared.place.Place.{Place};

    ghost Value = { Option Place };

    ghost view = { λ w. w.slot };

    ghost inverse = { λ slot. record { slot = slot } };
}

impl RecvWait {
    /// A wait that was never polled. It takes no memory.
    pub fn new() -> Self
        ensures { result ≡ None }
    {
        RecvWait { slot: None }
    }

    /// Makes it one that was never polled. It takes no memory.
    pub fn renew(&mut self)
        ensures { self.new ≡ None }
    {
        self.slot = None;
    }
}
