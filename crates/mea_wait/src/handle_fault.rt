use mea_base::Overflow;
use std::alloc::AllocError;
use std::error::Error;
use std::fmt;

/// Why a call that makes a further handle is refused.
#[derive(Debug, Clone, Copy, PartialEq, Eq, Drop)]
pub enum HandleFault {
    /// The count of handles is at its end.
    Overflow,
    /// There is no memory.
    NoMemory,
}

impl fmt::Display for HandleFault {
    fn fmt<O: fmt::Write>(&self, f: &mut fmt::Formatter<O>) -> fmt::Result {
        match self {
            HandleFault::Overflow => f.write_str("the count of handles is at its greatest value"),
            HandleFault::NoMemory => f.write_str("out of memory"),
        }
    }
}

impl Error for HandleFault {}

impl From<Overflow> for HandleFault {
    fn from(_overflow: Overflow) -> HandleFault {
        HandleFault::Overflow
    }
}

impl From<AllocError> for HandleFault {
    fn from(_error: AllocError) -> HandleFault {
        HandleFault::NoMemory
    }
}
