//! A crew of threads that share one recorded semaphore, and the program over it: each worker tries for a permit in
//! each round and gives it back, and what is printed is read off the history.
#![tactic(auto)]

mod answers;
mod fault;
mod gate;
mod gathering;
mod running;
mod sharing;
mod status;
mod worker;

pub use fault::CrewFault;
pub use gate::{Gate, Open};
pub use running::run_crew;
pub use sharing::crew;
pub use status::CrewStatus;
