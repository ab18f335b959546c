//! Under executors: the waits of `mea` as futures of the kit's `futures`, so that they run in its executors, in `join` and
//! `select`, and under the timers of `tokio`. One adapter serves them all, by the traits `Waits` and `End`.
//!
//! A future here ends its wait where it is dropped, at any point. What a wait gives is to be spent; where it is to be dropped
//! instead, `holding` and `try_holding` give it in a `Kept`. On a thread without tasks, `block` waits by any of them in one line.
#![tactic(auto)]

mod bell;
mod blocker;
mod blocking;
mod feeding;
mod holding;
mod initialising;
mod message;
mod receiving;
mod taking;
mod waiting;

pub use bell::Bell;
pub use blocker::Blocker;
pub use blocking::{block, block_before};
pub use feeding::{FeedError, Feeding, feed};
pub use holding::{Holding, TryHolding};
pub use initialising::{Initialising, initialise};
pub use mea_wait::Kept;
pub use message::MessageWait;
pub use receiving::{Lagged, Receives, Receiving, receive};
pub use taking::{Acquiring, TakeError, take, take_before};
pub use waiting::{Waiting, wait};
