//! The hall of once types: many calls that run once, cells that are filled once, and maps and groups by key, by name, with
//! their futures, over the cores of `mea_once_core`. It is proved against the model of `mea_once_model`, and knows the cores by their contracts alone.
#![tactic(auto)]

mod actions;
mod cell_entry;
mod cell_part;
mod cells;
mod errands;
mod family;
mod future_entry;
mod groups;
mod key_future;
mod key_part;
mod kinds;
mod maps;
mod meaning;
mod onces;
mod poll_reply;
mod polled_core;
mod round;
mod scripted;
mod table_core;
mod table_entry;
mod turn_core;

pub use family::{OnceFamily, OnceHall, OnceModel};
pub use groups::NamedGroup;
pub use maps::NamedMap;
pub use mea_events::OnceEvent;
