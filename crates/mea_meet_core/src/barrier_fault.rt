use std::error::Error;
use std::fmt;

/// Why a poll of a barrier has no answer. The barrier and the wait are unchanged, and the waker comes
/// back.
#[derive(PartialEq, Eq, Drop)]
pub enum BarrierFault<W> {
    /// There was no memory to register the waker.
    NoMemory(W),
    /// This arrival would complete the round whose number is the greatest.
    Overflow(W),
}

// The waker is not shown, and nothing is asked of its type.
impl<W> fmt::Debug for BarrierFault<W> {
    fn fmt<O: fmt::Write>(&self, f: &mut fmt::Formatter<O>) -> fmt::Result {
        f.write_str(match self {
            BarrierFault::NoMemory(_) => "NoMemory(..)",
            BarrierFault::Overflow(_) => "Overflow(..)",
        })
    }
}

impl<W> fmt::Display for BarrierFault<W> {
    fn fmt<O: fmt::Write>(&self, f: &mut fmt::Formatter<O>) -> fmt::Result {
        f.write_str(match self {
            BarrierFault::NoMemory(_) => "out of memory",
            BarrierFault::Overflow(_) => "no number is left for a further round",
        })
    }
}

impl<W: Drop> Error for BarrierFault<W> {}
