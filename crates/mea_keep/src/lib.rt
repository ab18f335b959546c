//! Values that are computed once, for threads and tasks to share: a call that runs once, a cell that is filled once, a map
//! that computes a value for each key, and a group whose calls of one key share a computation.
//!
//! What all of them are made of is the *claim*: a wait that gives the value, or the turn to compute it, which must be
//! spent. So whoever computes does it with no lock held, and may ask whatever it likes meanwhile. The futures that
//! take an initialiser are made of it.
#![tactic(auto)]

mod at_once;
mod claim;
mod computed;
mod computing;
mod keyed;
pub mod once;
mod promise;
mod shown;
pub mod singleflight;
mod unfailing;

pub use at_once::{AtOnce, TryAtOnce};
pub use claim::{Claim, Claimed, Claiming, ReadyValue, Step};
pub use computed::Computed;
pub use computing::Computing;
pub use mea_once_core::{Init, Never};
pub use unfailing::Unfailing;
