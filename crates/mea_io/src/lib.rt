//! Sources and sinks of bytes: standard input and output, bytes in memory that tell what was read and written and
//! fail where they are told to, and memory that never fails. Programs are generic over them, so that their
//! contracts can speak of bytes.
#![tactic(auto)]

mod memory;
mod sink;
mod source;
mod standard;
mod sure;
mod write;

pub use memory::{MemSink, MemSource};
pub use sink::{PutFault, Sink};
pub use source::{Failed, Source};
pub use standard::{StdSink, StdSource};
pub use sure::{SureSink, SureSource};
pub use write::write_text;
