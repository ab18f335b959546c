//! What `mea_bench_shared` does in rounds where it waits without an executor: a thread that polls again once its bell has rung,
//! many waits at one object, all there before any goes on, and threads at one lock.
#![tactic(auto)]

mod fault;
pub mod gathered;
pub mod keeping;
mod queued;
pub mod threads;
mod waiter;

pub use fault::Fault;
pub use waiter::{Bell, Waiter};
