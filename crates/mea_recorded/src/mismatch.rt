use mea_events::SemEvent;
use mea_family::Answer;
use thiserror::Error;

/// Where the receipts of passes, or what the semaphore was made with, and the entries of a history do not agree.
#[derive(Clone, Copy, Debug, PartialEq, Eq, Error)]
pub enum Mismatch {
    /// The entry of a receipt's number, or the first, holds another event than was asked, or another answer than was told.
    #[error("entry {number} of the history is not that of its receipt")]
    Entry {
        number: u64,
        asked: SemEvent,
        played: SemEvent,
        told: Answer,
        kept: Answer,
    },
    /// A receipt has a number that no entry has.
    #[error("a receipt names entry {number}, and the history has {entries}")]
    Beyond {
        number: u64,
        entries: u64,
    },
    /// Of two receipts of one pass that follow each other, the later has a number that is not greater.
    #[error("a receipt of entry {before} is followed by one of entry {after}")]
    Order {
        before: u64,
        after: u64,
    },
}
