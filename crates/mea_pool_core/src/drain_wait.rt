ghost use Rattle.std.specs.Prelude.{◌≡◌};

/// The future of the end of a drain. It belongs to the pool that has polled it.
///
/// It may be dropped without its ending call: its pool then stays as it is.
#[derive(Debug, PartialEq, Eq, Drop)]
pub enum DrainWait {
    /// Never polled.
    New,
    /// Polled and not ready then: it waits, or was told since, under this number of its pool.
    Listed { number: usize },
    /// It was ready.
    Done,
}

impl DrainWait {
    /// A wait that was never polled. It takes no memory.
    pub fn new() -> Self
        ensures { result ≡ DrainWait.New }
    {
        DrainWait::New
    }
}
