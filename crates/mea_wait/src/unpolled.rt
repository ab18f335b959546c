use std::error::Error;
use std::fmt;

/// Why a poll was refused.
#[derive(Debug, Clone, Copy, PartialEq, Eq, Drop)]
pub enum PollFault {
    /// There is no memory to wait.
    NoMemory,
    /// A count is at its end.
    Overflow,
}

impl fmt::Display for PollFault {
    fn fmt<O: fmt::Write>(&self, f: &mut fmt::Formatter<O>) -> fmt::Result {
        match self {
            PollFault::NoMemory => f.write_str("out of memory"),
            PollFault::Overflow => f.write_str("a count is at its greatest value"),
        }
    }
}

impl Error for PollFault {}

/// A poll that was refused: the wait comes back, to be polled again or ended, and the waker with it. No
/// waker comes back where the poll had used it up.
pub struct Unpolled<F, W> {
    /// The wait.
    pub future: F,
    /// The waker that was given to the poll.
    pub waker: Option<W>,
    /// Why.
    pub fault: PollFault,
}

impl<F, W> Unpolled<F, W> {
    ghost use Rattle.std.specs.Prelude.{◌≡◌, Some};

    /// A poll that found no memory. It takes none.
    pub fn no_memory(future: F, waker: W) -> Self
        ensures { result ≡ record { future = future; waker = Some waker; fault = PollFault.NoMemory } }
    {
        Unpolled {
            future,
            waker: Some(waker),
            fault: PollFault::NoMemory,
        }
    }
}
