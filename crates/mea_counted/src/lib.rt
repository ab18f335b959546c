//! A semaphore whose permits are counted across threads: its type names a ledger of std, each permit has a share of it
//! with its size for an amount, and the book lies under the lock. So that a permit which comes back is held, and that the
//! permits which are gathered at the end are all that are held, is known by proof. It stands on the contract of
//! `SemCore`; the program over such a semaphore stands above it.
#![tactic(auto)]

mod lack;
mod missing;
mod permit;
mod semaphore;
mod state;

pub use lack::Lack;
pub use missing::Missing;
pub use permit::NamedPermit;
pub use semaphore::NamedSemaphore;
pub use state::NamedState;
