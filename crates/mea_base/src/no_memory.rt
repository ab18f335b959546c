use std::alloc::{AllocError, AllocFailed};
use std::error::Error;
use std::{fmt, io};

/// There was no memory. Nothing has changed.
///
/// It comes from the errors of std's allocations by `?`, and goes by `?` into std's `AllocError` and `io::Error`.
#[derive(Clone, Copy, Debug, PartialEq, Eq)]
pub struct NoMemory;

impl fmt::Display for NoMemory {
    fn fmt<O: fmt::Write>(&self, f: &mut fmt::Formatter<O>) -> fmt::Result {
        f.write_str("out of memory")
    }
}

impl Error for NoMemory {}

impl From<AllocError> for NoMemory {
    fn from(_error: AllocError) -> NoMemory {
        NoMemory
    }
}

impl<T: Drop> From<AllocFailed<T>> for NoMemory {
    fn from(_failed: AllocFailed<T>) -> NoMemory {
        NoMemory
    }
}

impl From<NoMemory> for AllocError {
    fn from(_error: NoMemory) -> AllocError {
        AllocError
    }
}

impl From<NoMemory> for io::Error {
    fn from(_error: NoMemory) -> io::Error {
        io::Error::from(AllocError)
    }
}
