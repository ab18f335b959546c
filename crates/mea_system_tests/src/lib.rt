//! Scripts of the job service, of tasks on the executor and of the resource pool, with the text and the status that each must
//! have, run by the top calls of their programs; and calls of the core of the service and of the executor, with what they answer
//! and whom they wake. It has no code but tests.
#![tactic(auto)]

#[cfg(test)]
mod jobs;
#[cfg(test)]
mod pools;
#[cfg(test)]
mod programs;
#[cfg(test)]
mod rows;
#[cfg(test)]
mod tasks;
