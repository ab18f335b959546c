//! The crate `mea` under its module paths: every shared type of this library, for threads and tasks to share, and what
//! their permits, guards, handles and futures have in common.
//!
//! Here stand fair admission and the boxes; the others stand in `mea_sync`, `mea_link`, `mea_keep` and `mea_shot` and
//! are given again.
#![tactic(auto)]

pub mod admission;
pub mod atomicbox;
mod shown;

pub use mea_base::{NoMemory, Overflow, Poll, Wake};
pub use mea_keep::{
    AtOnce, Claim, Claimed, Claiming, Computed, Computing, Init, Never, ReadyValue, Step,
    TryAtOnce, Unfailing, once, singleflight,
};
pub use mea_link::{barrier, broadcast, latch, mpsc, shutdown, waitgroup};
pub use mea_lock_core::{Part, Then};
pub use mea_shot as oneshot;
pub use mea_sync::{Access, Downgrades, Shows, condvar, mutex, rwlock, semaphore};
pub use mea_wait::{End, HandleFault, Holds, Kept, PollFault, Polled, Unpolled, Waits};
