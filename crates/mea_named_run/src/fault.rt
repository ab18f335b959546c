use mea_counted::Missing;
use thiserror::Error;

/// Why nothing was counted.
#[derive(Clone, Copy, Debug, PartialEq, Eq, Error)]
pub enum Fault {
    /// There was no memory.
    #[error("out of memory")]
    NoMemory,
    /// Not all parts of the ledger came back.
    #[error(transparent)]
    Missing(Missing),
}
