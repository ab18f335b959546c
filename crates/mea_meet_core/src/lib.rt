//! The meeting points' cores: a barrier, a latch, a wait group and a shutdown, as pure state that is
//! changed by `&mut self`. They stand on the wait set and the countdown of `mea_sets` by their contracts
//! alone; the shared meeting points, their hall and the once types stand on them.
#![tactic(auto)]

mod barrier_core;
mod barrier_fault;
mod barrier_wait;
mod barrier_wait_result;
mod countdown_core;
mod countdown_wait;
mod group_core;
mod latch_core;
mod meeting_laws;
mod shutdown_core;

pub use barrier_core::BarrierCore;
pub use barrier_fault::BarrierFault;
pub use barrier_wait::BarrierWait;
pub use barrier_wait_result::BarrierWaitResult;
pub use countdown_core::CountdownCore;
pub use countdown_wait::CountdownWait;
pub use group_core::{GroupCore, GroupKind, GroupWait};
pub use latch_core::{LatchCore, LatchKind, LatchWait};
pub use meeting_laws::{a_latch_at_0_stays_there, a_round_has_one_leader};
pub use shutdown_core::ShutdownCore;
