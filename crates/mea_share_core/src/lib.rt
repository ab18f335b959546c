//! The core of fair admission: permits that keys share, and who is next of the keys that wait.
#![tactic(auto)]

mod admitted;
mod checked;
mod fair_core;
mod groups;
mod order;
mod rank;
mod share_acquire;
mod share_fault;
mod share_group;
mod shared_key;
mod tournament;
mod waiters;

pub use fair_core::FairCore;
pub use rank::Rank;
pub use share_acquire::{ShareAcquire, ShareStage};
pub use share_fault::ShareFault;
pub use shared_key::SharedKey;
pub use tournament::Tournament;
