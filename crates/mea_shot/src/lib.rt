//! A oneshot channel without a lock: one word, which changes in single steps, and two slots, one for the message and
//! one for the receiver's waker. No call waits for another thread, none loops, and `channel` alone takes memory.
//!
//! It ports `mea::oneshot`. What the two ends may do and what each knows after a step is one rule over the word,
//! the slots and both views, in `specs/Rule`; each kind of step is a function of `steps`.
#![tactic(auto)]

mod duty;
mod errors;
mod message;
mod receiver;
mod receiving;
mod sender;
mod sending;
mod shown;
mod steps;
mod view;

pub use errors::{RecvError, SendError, TryRecvError};
pub use message::{Message, Plain};
pub use receiver::{Receiver, Recv};
pub use sender::{Sender, Sent, Unsent, channel};
pub use view::{RecvStage, SendStage, View};
