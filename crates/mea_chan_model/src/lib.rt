//! The model of channels and of boxes: what each event does to many of them with their senders,
//! receivers and futures, as records, lists and finite maps, and the laws that hold of every list of events. It has no code
//! that runs but the types of what is done to bounded and broadcast channels and to boxes; the hall of channels is proved
//! against it.
#![tactic(auto)]

mod bounded_action;
mod box_action;
mod broadcast_action;
mod laws;

pub use bounded_action::BoundedAction;
pub use box_action::BoxAction;
pub use broadcast_action::BroadcastAction;
pub use laws::{
    enough_senders_are_woken, messages_are_in_order, no_wake_is_lost, wakers_are_kept,
    wakes_are_of_the_registered,
};
