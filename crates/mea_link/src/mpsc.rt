//! Channels of many senders and one receiver, for threads and tasks to share: `mea::mpsc`.
mod bounded_ends;
mod unbounded_ends;

pub use bounded_ends::{
    BoundedReceiver, BoundedRecv, BoundedSend, BoundedSender, Sending, bounded,
};
pub use mea_chan_core::{RecvError, SendError, TryRecvError, TrySendError, UnboundedError};
pub use unbounded_ends::{UnboundedReceiver, UnboundedRecv, UnboundedSender, unbounded};
