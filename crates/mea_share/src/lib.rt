//! The hall of fair admission: many admissions with their futures and permits by name, each over a core of its own.
#![tactic(auto)]

mod actions;
mod admission_entry;
mod family;
mod future_entry;
mod meaning;
mod part;
mod permit_entry;

pub use admission_entry::Core;
pub use family::{ShareFamily, ShareHall, ShareModel};
