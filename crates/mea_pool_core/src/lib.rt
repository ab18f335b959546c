//! The core of a pool: resources that are lent, each to one lease at a time, until the pool is drained; as pure state
//! that is changed by `&mut self`. Leases wait for a place at a semaphore with one permit for each resource, which a
//! drain closes; who waits for the drain's end waits on a condition variable. It stands on the contracts of
//! `mea_sem_core`'s `SemCore` and of `mea_lock_core`'s `MutexCore` and `CondvarCore` alone.
//!
//! A wait or a lease is *one of* a pool where the number or the slot that it keeps is in use there for it. A pool can
//! not tell one that another pool has made under the same number or slot, so a user keeps the two together.
#![tactic(auto)]

mod drain_wait;
mod gate;
mod laws;
mod lease;
mod lease_poll;
mod lease_wait;
mod places;
mod pool_core;
mod shelf;

pub use drain_wait::DrainWait;
pub use laws::{a_drained_pool_stays_drained, each_slot_stands_once, leases_are_granted_in_order};
pub use lease::Lease;
pub use lease_poll::LeasePoll;
pub use lease_wait::LeaseWait;
pub use pool_core::PoolCore;
