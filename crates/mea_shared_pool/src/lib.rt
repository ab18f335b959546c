//! A pool of resources that threads and tasks share: a lock round the core of `mea_pool_core`, with waits and leases that must
//! be spent. Below stand the core, the wakers of `mea_base` and the waits of `mea_wait`; under executors its waits run by the
//! adapter of `mea_futures`, as those of every shared type do.
#![tactic(auto)]

mod draining;
mod getting;
mod leased;
mod pool;
mod steps;

pub use draining::{Drained, Draining, OwnedDrained};
pub use getting::{Closed, Get, Getting, OwnedGet};
pub use leased::{Lease, Leased, OwnedLease};
pub use pool::Pool;
