//! What crates of tests have in common: wakers that count, polls that hand out what they came to, who plays a script as a
//! table, and a hasher under which all keys collide. It ports nothing of `mea`.
//!
//! A value that must be spent goes through each of the polls by hand, so a test is a row of calls and comparisons.
#![tactic(auto)]

mod bell;
mod collides;
mod play;
mod polls;
mod spent;

pub use bell::{Bell, Count, count, rung};
pub use collides::Collides;
pub use play::{Plays, differs_at};
pub use polls::{PollOutcome, gives, goes_on, pends, poll, polled_for};
pub use spent::{end, found};
