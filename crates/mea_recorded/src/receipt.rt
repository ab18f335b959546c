use mea_family::{Answer, Stop};
use thiserror::Error;

/// What is told of an event that was played: the number of its entry in the history, and its answer.
#[derive(Clone, Copy, Debug, Drop, PartialEq, Eq)]
pub struct Receipt {
    /// The number of the entry.
    pub number: u64,
    /// The answer of the event.
    pub answer: Answer,
}

/// Why an event was not played, and how many entries there were then. The history is as before.
#[derive(Clone, Copy, Debug, PartialEq, Eq, Error)]
#[error("{stop}, at entry {at}")]
pub struct Refused {
    /// Why.
    pub stop: Stop,
    /// How many entries there were.
    pub at: u64,
}
