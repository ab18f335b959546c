//! What halls keep by name: maps by name, also with room made before, the hasher of names, and a waker that tells whose it is.
#![tactic(auto)]

mod by_name;
mod name_hasher;
mod named_waker;
mod roomy;

pub use by_name::ByName;
pub use name_hasher::NameHasher;
pub use named_waker::NamedWaker;
pub use roomy::Roomy;
