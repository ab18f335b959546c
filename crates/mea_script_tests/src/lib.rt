//! A small machine of scripts, which counts doors, as a test of `mea_script`: what a line stands for depends on the lines
//! before it, its reply is how many doors are open, and so is a last text at the end of the input. Beside it how the tests
//! of any program that plays scripts run it, the sources and sinks of `mea_io`, and a terminal.
#![tactic(auto)]

mod doors;
mod program;
mod running;
#[cfg(test)]
mod terminal;
#[cfg(test)]
mod tests;
#[cfg(test)]
mod transfer;

pub use program::{Program, bytes_of, ran};
pub use running::run_doors;
