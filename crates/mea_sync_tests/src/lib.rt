//! Tests of the semaphore, the locks and the condition variable that threads share, and of the resource pool with its core, by public
//! contracts alone: each call once, its answer and the wakers that it woke, and runs of several threads. It has no code but tests.
#![tactic(auto)]

#[cfg(test)]
mod condvar;
#[cfg(test)]
mod guards;
#[cfg(test)]
mod lock_threads;
#[cfg(test)]
mod mapped;
#[cfg(test)]
mod merging;
#[cfg(test)]
mod missing;
#[cfg(test)]
mod mutex;
#[cfg(test)]
mod pool;
#[cfg(test)]
mod rwlock;
#[cfg(test)]
mod semaphore;
#[cfg(test)]
mod threads;
