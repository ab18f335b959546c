//! The model of once types: what each event does to many calls that run once, cells that are filled once, and maps and
//! groups that compute a value once for each key, with their futures, as records, lists and finite maps, and the laws that
//! hold of every list of events. It has no code that runs but the types of what a future does at its cell and of what is done
//! to its value; the hall of once types is proved against it.
#![tactic(auto)]

mod errand;
mod laws;
mod whole_use;

pub use errand::{Errand, Initialiser};
pub use laws::{
    a_settled_initialiser_is_woken, a_value_stays, no_wake_is_lost, tables_are_valid,
    wakers_are_kept, wakes_are_of_the_registered,
};
pub use whole_use::WholeUse;
