//! A semaphore that keeps its history: every event that was played on it, with its answer and its wakes, so
//! that what threads did to it replays in the queue model. It stands on the hall of semaphores and on the
//! ledger of shares of std; programs that share such a semaphore stand above it.
#![tactic(auto)]

mod closing;
mod desk;
mod event_sizes;
mod laws;
mod mismatch;
mod pass;
mod receipt;
mod recorded;
mod shared;

pub use laws::a_history_is_a_run;
pub use mismatch::Mismatch;
pub use pass::{Noted, Pass};
pub use receipt::{Receipt, Refused};
pub use recorded::Recorded;
pub use shared::RecordedSemaphore;
