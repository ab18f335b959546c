//! The semaphore's core: permits, and the acquires and debts that wait for them, as pure state that is
//! changed by `&mut self`. It stands on the wait list and the outbox of `mea_base` by their contracts
//! alone; locks, channels, once cells, pools and the hall of semaphores stand on it.
//!
//! An acquire is *one of* a core where the number that it keeps is in use there for it. A core can not tell one
//! that another core has queued under the same number, so a user keeps the two together.
#![tactic(auto)]

mod acquire;
mod checked;
mod closing;
mod open_turn;
mod pouring;
mod sem_core;
mod wait_record;

pub use acquire::Acquire;
pub use open_turn::OpenTurn;
pub use sem_core::SemCore;
