//! Scripts that are played line by line on a machine, from a source of bytes to a sink of bytes. A machine says what
//! a line is and what its reply is; the lines, the limits, the endings and the statuses are the same for each. Below
//! stand the sources and sinks of `mea_io` and the text of `mea_text`; above, the programs.
#![tactic(auto)]

mod begun;
mod ending;
mod machine;
mod player;
mod running;
mod status;
mod transfer;

pub use machine::Machine;
pub use running::play_script;
pub use status::Status;
pub use transfer::write_last;
