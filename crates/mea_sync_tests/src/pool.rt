//! The resource pool: calls of its core, and of the pool that threads and tasks share, and threads whose waits are given up.
mod calls;
mod leases;
mod play;
mod rows;
mod threads;
