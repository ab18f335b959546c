use std::error::Error;
use std::fmt;

/// Why an acquire could not begin to wait; its waker comes back. Nothing has changed.
#[derive(PartialEq, Eq, Drop)]
pub enum ShareFault<W> {
    /// There was no memory.
    NoMemory(W),
    /// No further number is there for one that waits.
    Overflow(W),
}

// The waker is not shown, and nothing is asked of its type.
impl<W> fmt::Debug for ShareFault<W> {
    fn fmt<O: fmt::Write>(&self, f: &mut fmt::Formatter<O>) -> fmt::Result {
        f.write_str(match self {
            ShareFault::NoMemory(_) => "NoMemory(..)",
            ShareFault::Overflow(_) => "Overflow(..)",
        })
    }
}

impl<W> fmt::Display for ShareFault<W> {
    fn fmt<O: fmt::Write>(&self, f: &mut fmt::Formatter<O>) -> fmt::Result {
        f.write_str(match self {
            ShareFault::NoMemory(_) => "out of memory",
            ShareFault::Overflow(_) => "no number is left for one that waits",
        })
    }
}

impl<W: Drop> Error for ShareFault<W> {}
