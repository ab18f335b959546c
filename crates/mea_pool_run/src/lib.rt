//! Scripts of a resource pool: the words of the command line, the lines and their texts, and the pool that a script is
//! played on. Its waits and leases are known by the numbers of the lines that made them. Below stand the core of
//! `mea_pool_core`, the reader of scripts of `mea_script` and the text of `mea_text`; above, the program.
#![tactic(auto)]

mod event;
mod lines;
mod machine;
mod named_pool;
mod reply;
mod running;
mod thing;

pub use running::run_pool;
