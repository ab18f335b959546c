//! The program: scripts from a source of bytes, and their replies to a sink of bytes. All that it does is
//! `run`, over the hall of all families; the sources and sinks of `mea_io` are given again.
#![tactic(auto)]

mod generator;
mod machine;
mod making;
mod running;

pub use generator::{generated_scripts_are_legal, make_script};
pub use mea_io::{
    Failed, MemSink, MemSource, PutFault, Sink, Source, StdSink, StdSource, SureSink, SureSource,
};
pub use mea_script::Status;
pub use running::run;
