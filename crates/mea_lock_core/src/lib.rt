//! The cores of the mutex, the reader-writer lock and the condition variable, and the trait `Part`, which
//! names a part of a locked value. A lock is a semaphore and a value: each of these stands on the contract
//! of `mea_sem_core`'s `SemCore` alone, and the condition variable on those of the list of waiters and of
//! the mutex. The hall of locks and the locks that threads share stand on them.
//!
//! A wait is *one of* a core where the number that it keeps is in use there for it. A core can not tell one
//! that another core has queued under the same number, so a user keeps the two together.
#![tactic(auto)]

mod cond_wait;
mod condvar_core;
mod condvar_while;
mod lock_wait;
mod mutex_core;
mod note;
mod part;
mod rw_core;
mod rw_wait;
mod then;
mod wait_while;

pub use cond_wait::CondWait;
pub use condvar_core::CondvarCore;
pub use lock_wait::LockWait;
pub use mutex_core::MutexCore;
pub use part::{Part, with_part, with_part_mut};
pub use rw_core::RwCore;
pub use rw_wait::RwWait;
pub use then::Then;
pub use wait_while::WaitWhile;
