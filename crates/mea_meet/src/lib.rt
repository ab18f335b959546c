//! The hall of the meeting points: many barriers, latches, wait groups and shutdowns by name, with the futures
//! that wait for them, over the cores of `mea_meet_core`. It is proved against the model of `mea_meet_model`, and
//! knows the cores by their contracts alone.
#![tactic(auto)]

mod actions;
mod barrier_entry;
mod barrier_part;
mod count_core;
mod count_part;
mod count_wait;
mod family;
mod groups;
mod holder_entry;
mod kinds;
mod latches;
mod meaning;
mod new_point;
mod point_entry;
mod shutdowns;
mod wait_entry;

pub use family::{MeetFamily, MeetHall, MeetModel};
pub use mea_events::MeetEvent;
pub use mea_meet_core::{
    BarrierCore, BarrierFault, BarrierWait, BarrierWaitResult, GroupCore, GroupWait, LatchCore,
    LatchWait, ShutdownCore,
};
