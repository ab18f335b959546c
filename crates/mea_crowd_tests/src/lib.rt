//! A crowd of tasks over all primitives of `mea` at a time, on four threads, by public contracts alone. Half of them are given
//! up, in whatever stage they are then or with what they were just woken for.
#![tactic(auto)]

#[cfg(test)]
mod channels;
#[cfg(test)]
mod crowd;
#[cfg(test)]
mod hearing;
#[cfg(test)]
mod keeps;
#[cfg(test)]
mod keyed;
#[cfg(test)]
mod locks;
#[cfg(test)]
mod makes;
#[cfg(test)]
mod meets;
#[cfg(test)]
mod oneshots;
#[cfg(test)]
mod patience;
#[cfg(test)]
mod spawns;
#[cfg(test)]
mod tasks;
#[cfg(test)]
mod tickets;
