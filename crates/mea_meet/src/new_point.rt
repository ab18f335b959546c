ghost use Rattle.std.specs.Prelude.{◌≡◌, true, false};

/// A new point that counts.
#[derive(Clone, Copy)]
pub struct NewPoint {
    /// The count of its signal.
    pub signal: u32,
    /// The count of its members.
    pub members: u32,
    /// Whether its first holder is counted among the members.
    pub counted: bool,
    /// Whether it has a sender.
    pub sends: bool,
}

impl NewPoint {
    /// A latch has its signal's count and one holder, which is its name.
    pub fn latch(n: u32) -> Self
        ensures { result ≡ record { signal = n; members = 0; counted = false; sends = false } }
    {
        NewPoint {
            signal: n,
            members: 0,
            counted: false,
            sends: false,
        }
    }

    /// A group has its members, of which the first handle is one.
    pub fn group() -> Self
        ensures { result ≡ record { signal = 0; members = 1; counted = true; sends = false } }
    {
        NewPoint {
            signal: 0,
            members: 1,
            counted: true,
            sends: false,
        }
    }

    /// A shutdown has a sender and a receiver, and a signal that is not set.
    pub fn shutdown() -> Self
        ensures { result ≡ record { signal = 1; members = 1; counted = true; sends = true } }
    {
        NewPoint {
            signal: 1,
            members: 1,
            counted: true,
            sends: true,
        }
    }
}
