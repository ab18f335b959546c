//! The queue model of semaphores: what each event does to many semaphores with their futures and permits,
//! as records, lists, finite maps and sums, and the laws that hold of every list of events. It has no code
//! that runs; the halls above are proved against it.
#![tactic(auto)]

mod balance;
mod closing;
mod order;
mod semaphore_laws;
mod validity;
mod waiters;
mod wakes;

pub use balance::permits_balance;
pub use closing::{a_close_cuts_who_waits, a_closed_semaphore_stays_closed};
pub use order::grants_follow_first_polls;
pub use semaphore_laws::{
    an_end_gives_back_what_was_paid, nobody_overtakes, the_head_is_paid_first,
};
pub use validity::{halls_are_valid, names_stay_below, tallies_account, validity_is_kept};
pub use waiters::wakes_are_of_waiters;
pub use wakes::{no_wake_is_lost, wakers_are_kept};
