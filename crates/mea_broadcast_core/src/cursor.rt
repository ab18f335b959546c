ghost use Rattle.std.specs.Prelude.{◌≡◌};

/// A receiver: how many of the messages that were ever sent it has passed. It belongs to the channel that has made it.
///
/// It may be dropped without an ending call. It ports the state of `mea::broadcast::overflow::Receiver`.
#[derive(Debug, PartialEq, Eq, Drop)]
pub struct Cursor {
    pub position: u64,
}

impl Cursor {
    /// Makes it a receiver that has passed the messages below this tail of a channel, as one that subscribes there. It
    /// takes no memory.
    pub fn renew(&mut self, tail: u64)
        ensures { self.new.position ≡ tail }
    {
        self.position = tail;
    }
}
