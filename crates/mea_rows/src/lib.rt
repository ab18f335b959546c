//! Scripts with the text and the status that each must have, played by `run`; among them a script for each kind of wait, ended in
//! each stage, and reads and writes that fail. Beside them events on the halls, since both stand on all families. It has no code
//! but tests.
#![tactic(auto)]

#[cfg(test)]
mod admission;
#[cfg(test)]
mod broadcast;
#[cfg(test)]
mod channels;
#[cfg(test)]
mod condvars;
#[cfg(test)]
mod examples;
#[cfg(test)]
mod fault_table;
#[cfg(test)]
mod faults;
#[cfg(test)]
mod generated;
#[cfg(test)]
mod halls;
#[cfg(test)]
mod limits;
#[cfg(test)]
mod locks;
#[cfg(test)]
mod maps;
#[cfg(test)]
mod meeting_points;
#[cfg(test)]
mod mixed;
#[cfg(test)]
mod once;
#[cfg(test)]
mod permits;
#[cfg(test)]
mod refusals;
#[cfg(test)]
mod rows;
#[cfg(test)]
mod stage_table;
#[cfg(test)]
mod usage;
#[cfg(test)]
mod waiting;
