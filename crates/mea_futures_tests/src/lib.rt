//! Tests of the waits of `mea` under executors, by public contracts alone: held by tasks of each executor, joined, under a
//! time limit, as streams, with a future of the user's that computes, and dropped in each stage.
#![tactic(auto)]

#[cfg(test)]
mod blocker;
#[cfg(test)]
mod claims;
#[cfg(test)]
mod combined;
#[cfg(test)]
mod drops;
#[cfg(test)]
mod job;
#[cfg(test)]
mod polls;
#[cfg(test)]
mod pools;
#[cfg(test)]
mod sinks;
#[cfg(test)]
mod streams;
#[cfg(test)]
mod supervisor;
#[cfg(test)]
mod waits;
