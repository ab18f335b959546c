//! A one-thread executor of small tasks that take and give permits of semaphores. It stands on the hall of semaphores of
//! `mea_sem` by its contract alone: what a task waits with is a future of the hall, and its waker is the task's number.
#![tactic(auto)]

mod executor;
mod faults;
mod laws;
mod phase;
mod run_queue;
mod state;
mod step;
mod task;
mod turns;

pub use executor::Executor;
pub use faults::AddFault;
pub use laws::{machines_come_to_rest, moves_keep_sound, releases_overflow_alone};
pub use phase::Phase;
pub use state::TaskState;
pub use step::Step;
