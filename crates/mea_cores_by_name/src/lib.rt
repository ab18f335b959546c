//! Cores whose waiters are known by the names of their futures: how the numbers that a core gave and the names
//! that its wakers carry go together, and that every call of a core keeps them so. It has no code that runs.
#![tactic(auto)]

mod laws;

pub use laws::{a_pour_keeps_links, a_registration_keeps_links};
