//! What the permits, guards, handles and futures of all shared types have in common: a value that must be
//! spent, a wait that is polled until it is ready or ended, and the errors of both. The shared types stand
//! above it and meet its traits, so that one adapter serves every future of every one of them.
//!
//! A value here without `Drop` must be spent: to let one go without its ending call does not compile.
#![tactic(auto)]

mod end;
mod handle_fault;
mod holds;
mod kept;
mod polled;
mod unpolled;
mod waits;
mod waking;

pub use end::End;
pub use handle_fault::HandleFault;
pub use holds::Holds;
pub use kept::Kept;
pub use polled::Polled;
pub use unpolled::{PollFault, Unpolled};
pub use waits::Waits;
pub use waking::hand_out;
