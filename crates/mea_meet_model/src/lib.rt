//! The model of the meeting points: what each event does to barriers, latches, wait groups and shutdowns
//! with the futures that wait for them, as records, lists and finite maps, and the laws that hold of every
//! list of events. It has no code that runs but the type of what is done to a barrier; the hall above is proved against it.
#![tactic(auto)]

mod barrier_action;
mod counts;
mod laws;
mod leaders;
mod registered;
mod validity;

pub use barrier_action::BarrierAction;
pub use counts::an_ended_count_stays_ended;
pub use laws::{no_wake_is_lost, wakers_are_kept};
pub use leaders::a_round_has_one_leader;
pub use registered::wakes_are_of_the_registered;
pub use validity::{
    a_borrowed_receiver_is_there, halls_are_valid, validity_is_kept, what_is_there_lives,
};
