use std::fmt;
use thiserror::Error;

/// A message was not sent, since the last position is taken; it comes back. The crate `mea` has no such refusal: its
/// positions wrap.
#[derive(Drop, PartialEq, Eq)]
pub struct SendRefused<T>(pub T);

// The value is not shown, and nothing is asked of its type.
impl<T> fmt::Debug for SendRefused<T> {
    fn fmt<O: fmt::Write>(&self, f: &mut fmt::Formatter<O>) -> fmt::Result {
        f.write_str("SendRefused(..)")
    }
}

impl<T> fmt::Display for SendRefused<T> {
    fn fmt<O: fmt::Write>(&self, f: &mut fmt::Formatter<O>) -> fmt::Result {
        f.write_str("no position is left for a message")
    }
}

impl<T: Drop> std::error::Error for SendRefused<T> {}

/// Why a broadcast channel was not made. The crate `mea` panics or aborts in its place.
#[derive(Clone, Copy, Debug, PartialEq, Eq, Error)]
pub enum BroadcastFault {
    /// There was no memory for the ring.
    #[error("out of memory")]
    NoMemory,
    /// The least power of two that is at least the capacity passes the greatest number.
    #[error("the capacity is too great")]
    Overflow,
}

/// Why a receive that waits has no message. It ports `mea::broadcast::overflow::RecvError`.
#[derive(Clone, Copy, Debug, PartialEq, Eq, Error)]
pub enum BroadcastRecv {
    /// This many messages that were not received are kept no more; the cursor is at the oldest that is kept.
    #[error("receiver has been lagged by {0}")]
    Lagged(u64),
    /// All messages were received, and no sender lives.
    #[error("receiving on a closed channel")]
    Disconnected,
}

/// Why no message was received at once. It ports `mea::broadcast::overflow::TryRecvError`.
#[derive(Clone, Copy, Debug, PartialEq, Eq, Error)]
pub enum BroadcastTry {
    /// All messages were received, and a sender lives.
    #[error("receiving on an empty channel")]
    Empty,
    /// This many messages that were not received are kept no more; the cursor is at the oldest that is kept.
    #[error("receiver has been lagged by {0}")]
    Lagged(u64),
    /// All messages were received, and no sender lives.
    #[error("receiving on a closed channel")]
    Disconnected,
    /// There was no memory for a clone of the message, which is yet to be received.
    #[error("out of memory")]
    NoMemory,
}
