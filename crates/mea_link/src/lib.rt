//! The barrier, the latch, the wait group, the shutdown and the channels, for threads and tasks to share: a
//! lock round a core, with handles and futures that must be spent.
//!
//! Each call takes the lock, makes its step on the core, leaves the lock, and then wakes those whom the step
//! has made ready, one at a time. The module paths and the names are those of the crate `mea`.
#![tactic(auto)]

pub mod barrier;
pub mod broadcast;
pub mod latch;
pub mod mpsc;
mod shown;
pub mod shutdown;
pub mod waitgroup;
