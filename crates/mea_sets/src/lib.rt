//! Sets of wakers that wait for one thing, and counts that wake all who wait for their end. They stand on
//! the outbox of `mea_base`; the meeting points stand on them.
#![tactic(auto)]

mod countdown;
mod place;
mod wait_set;
mod wait_set_laws;

pub use countdown::Countdown;
pub use place::Place;
pub use wait_set::WaitSet;
pub use wait_set_laws::{a_set_is_its_pairs, numbers_never_repeat};
