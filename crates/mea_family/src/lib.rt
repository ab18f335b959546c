//! What scripts and halls say of every family alike: the answers to events, why one is refused, the forms of things, the
//! account of a semaphore, and the record of a family with what it owes to those who wait. Models, halls and the readers
//! of scripts stand on it; cores and the types that threads share do not.
#![tactic(auto)]

mod answer;
mod counts;
mod form;
mod ledger;
mod reply;
mod stop;

pub use answer::Answer;
pub use counts::one_if;
pub use form::Form;
pub use ledger::Ledger;
pub use reply::{Reply, Word, yes_if};
pub use stop::{Stop, borrowed_if, overflow_if, unknown_unless, zero_if};
