//! Tests of what threads share besides locks, channels and meeting points, by public contracts alone: the values that are computed
//! once, the oneshot channel, fair admission and the boxes. Each call once, its answer and the wakers that it woke, and runs of several
//! threads. It has no code but tests.
#![tactic(auto)]

#[cfg(test)]
mod admission;
#[cfg(test)]
mod box_threads;
#[cfg(test)]
mod boxes;
#[cfg(test)]
mod cell;
#[cfg(test)]
mod claims;
#[cfg(test)]
mod counts;
#[cfg(test)]
mod flight;
#[cfg(test)]
mod group;
#[cfg(test)]
mod inits;
#[cfg(test)]
mod map;
#[cfg(test)]
mod once;
#[cfg(test)]
mod shot;
#[cfg(test)]
mod shot_threads;
