//! The model of locks: what each event does to many mutexes, reader-writer locks and condition variables with their futures and
//! guards, as records, lists and finite maps, and the laws that hold of every list of events. It has no code that runs but
//! the types of what is done to a condition variable and of when a wait is ready; the hall of locks is proved against it.
#![tactic(auto)]

mod cond_action;
mod laws;
mod until;

pub use cond_action::CondAction;
pub use laws::{a_write_is_alone, no_wake_is_lost, wakers_are_kept, wakes_are_of_the_registered};
pub use until::Until;
