//! The model of fair admission: what each event does to many admissions with their futures and permits, as records and
//! finite maps, and the laws that hold of every list of events. It has no code that runs; the hall of fair
//! admission is proved against it.
#![tactic(auto)]

mod laws;

pub use laws::{
    grants_are_in_order, halls_are_valid, no_wake_is_lost, wakers_are_kept,
    wakes_are_of_the_registered,
};
