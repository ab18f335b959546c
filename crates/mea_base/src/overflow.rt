use std::error::Error;
use std::fmt;

/// A count would pass its greatest value. Nothing has changed.
#[derive(Clone, Copy, Debug, PartialEq, Eq)]
pub struct Overflow;

impl fmt::Display for Overflow {
    fn fmt<O: fmt::Write>(&self, f: &mut fmt::Formatter<O>) -> fmt::Result {
        f.write_str("a count is at its greatest value")
    }
}

impl Error for Overflow {}
