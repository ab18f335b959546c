//! The hall of a family of primitives: its objects by name, with the list of the wakers that they made ready. What the
//! families differ in is a trait; the hall over it is proved once.
#![tactic(auto)]

mod family;
mod family_hall;

pub use family::Family;
pub use family_hall::FamilyHall;
