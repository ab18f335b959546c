//! Workers that share one semaphore whose permits are counted across them, and the program over it: each tries for a
//! permit in each round and gives it back, but keeps that of its last round, and what is printed is counted once all are
//! joined. It stands on `mea_counted`; the program's `main` stands above it.
#![tactic(auto)]

mod counts;
mod fault;
mod gathering;
mod running;
mod status;

pub use running::run_named;
pub use status::NamedStatus;
