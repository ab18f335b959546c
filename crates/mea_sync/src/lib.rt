//! The semaphore, the mutex, the reader-writer lock and the condition variable, for threads and tasks to
//! share: a lock round a core, with futures, permits and guards that must be spent.
//!
//! Each call takes the lock, makes its step on the core, leaves the lock, and then wakes those whom the step
//! has made ready, one at a time. What a step does is a clause of the function that is lent the core; what a
//! call of a shared type did, told from outside the lock, is no clause, since others may have come between.
//! The module paths and the names are those of the crate `mea`.
#![tactic(auto)]

mod access;
pub mod condvar;
mod made;
mod mapped;
pub mod mutex;
pub mod rwlock;
pub mod semaphore;
mod shown;

pub use access::{Access, Downgrades, Shows};
