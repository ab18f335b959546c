//! The core of a broadcast channel: each message goes to each receiver, a ring keeps the last ones, and a receiver that
//! falls behind is told how many it has missed. It is pure state, changed by `&mut self`; it makes wakers ready and
//! calls none. It stands on the wait set of `mea_sets` and on the kit's ring; the hall of channels and the types that
//! threads share stand on it.
#![tactic(auto)]

mod broadcast_core;
mod checked;
mod cursor;
mod errors;
mod laws;
mod recv_wait;

pub use broadcast_core::BroadcastCore;
pub use cursor::Cursor;
pub use errors::{BroadcastFault, BroadcastRecv, BroadcastTry, SendRefused};
pub use laws::{a_receiver_steps_through_what_was_sent, the_ring_stands_for_all_messages};
pub use recv_wait::RecvWait;
