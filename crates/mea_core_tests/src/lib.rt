//! Tests of the calls of the lists, sets and cores, by their public contracts alone: that they find memory
//! where there is some, which no clause says, and each object once in use; counters of all cores at their
//! ends, and careless initialisers, each as a table. They stand in a crate of their own, since a crate that
//! has tests is proved twice. It has no code but tests.
#![tactic(auto)]

#[cfg(test)]
mod base;
#[cfg(test)]
mod bounded;
#[cfg(test)]
mod boxes;
#[cfg(test)]
mod broadcast;
#[cfg(test)]
mod careless_table;
#[cfg(test)]
mod cells;
#[cfg(test)]
mod clones;
#[cfg(test)]
mod computing;
#[cfg(test)]
mod counters;
#[cfg(test)]
mod ends_table;
#[cfg(test)]
mod errors;
#[cfg(test)]
mod inits;
#[cfg(test)]
mod keys;
#[cfg(test)]
mod lock;
#[cfg(test)]
mod meet;
#[cfg(test)]
mod numbers;
#[cfg(test)]
mod once;
#[cfg(test)]
mod oneshot;
#[cfg(test)]
mod play;
#[cfg(test)]
mod sem_core;
#[cfg(test)]
mod sets;
#[cfg(test)]
mod share;
#[cfg(test)]
mod tables;
#[cfg(test)]
mod unbounded;
