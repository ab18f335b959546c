//! All families of primitives, played as one with one list of ready wakers, and the replay of a list of events. Below it
//! stand a crate for each family and the events of all lines; above it the program.
#![tactic(auto)]

mod families;
mod hall;
mod history;
mod played;

pub use hall::Hall;
pub use history::{grants_follow_first_polls, no_wake_is_lost, permits_balance};
pub use played::{Played, replay};
