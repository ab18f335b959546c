ghost use Rattle.std.specs.Prelude.{◌≡◌};

use mea_sets::Place;

/// The future of a wait at a barrier. It arrives by its first poll.
///
/// It may be dropped without its ending call: its arrival and its waker stay either way. It ports the
/// state of `mea`'s internal `BarrierWait`.
#[derive(Debug, PartialEq, Eq, Drop)]
pub enum BarrierWait {
    /// Never polled.
    New,
    /// It has arrived in this round, and its waker is registered under the number in this slot.
    Arrived { round: u64, slot: Option<Place> },
    /// It was ready.
    Done,
}

impl BarrierWait {
    /// A wait that was never polled. It takes no memory.
    pub fn new() -> Self
        ensures { result ≡ BarrierWait.New }
    {
        BarrierWait::New
    }

    /// Makes it one that was never polled. It takes no memory.
    pub fn renew(&mut self)
        ensures { self.new ≡ BarrierWait.New }
    {
        *self = BarrierWait::New;
    }
}
