//! The hall of locks: many mutexes, reader-writer locks and condition variables by name, with their futures and
//! guards, over the cores of `mea_lock_core`. It is proved against the model of `mea_lock_model`, and knows the cores by their contracts
//! alone.
#![tactic(auto)]

mod access;
mod actions;
mod condvar_entry;
mod entries;
mod family;
mod guard_entry;
mod kinds;
mod lock_core;
mod meaning;
mod mutexes;
mod part;
mod rw_locks;
mod until;
mod wait_entry;
mod wait_part;

pub use family::{LockFamily, LockHall, LockModel};
pub use mea_events::LockEvent;
