//! Semaphores by name: the hall that plays the events of scripts on cores. It is proved against the queue
//! model of `mea_sem_model`, stands on the core of `mea_sem_core` by its contract alone, and gives the
//! names of both again.
#![tactic(auto)]

mod actions;
mod causes;
mod entries;
mod family;
mod futures;
mod grant;
mod hall;
mod moving;
mod permits;
mod semaphores;

pub use family::SemFamily;
pub use hall::SemHall;
pub use mea_events::SemEvent;
pub use mea_sem_core::{Acquire, SemCore};
