//! The program over the core of a job service: what a line of a script stands for, what its reply is, and the run of a
//! whole script. Below stand the core, in `mea_job_core`, and the reader of scripts, in `mea_script`; above, the program.
#![tactic(auto)]

mod event;
mod lines;
mod machine;
mod replies;
mod running;

pub use event::JobEvent;
pub use lines::event_of_line;
pub use machine::JobMachine;
pub use running::run_jobs;
