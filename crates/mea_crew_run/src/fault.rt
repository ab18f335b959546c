use mea_recorded::{Mismatch, Refused};
use thiserror::Error;

/// Why a crew gave no history.
#[derive(Clone, Copy, Debug, PartialEq, Eq, Error)]
pub enum CrewFault {
    /// There was no memory.
    #[error("out of memory")]
    NoMemory,
    /// An event of a worker was refused for a cause.
    #[error(transparent)]
    Refused(Refused),
    /// The receipts and the history did not agree.
    #[error(transparent)]
    Mismatch(Mismatch),
}
