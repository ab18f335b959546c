ghost use Rattle.std.specs.Prelude.{◌≡◌};

use std::fmt;
use thiserror::Error;

/// A value was not sent, since its receiver has ended; the value comes back. It ports `mea::mpsc::SendError`.
#[derive(Drop, PartialEq, Eq)]
pub struct SendError<T>(pub T);

impl<T> SendError<T> {
    /// The value that was not sent.
    pub fn as_inner(&self) -> &T
        ensures { result.now ≡ self.now.0 }
    {
        &self.0
    }

    /// The value that was not sent.
    pub fn into_inner(self) -> T
        ensures { result ≡ self.0 }
    {
        let SendError(value) = self;
        value
    }
}

// The value is not shown, and nothing is asked of its type.
impl<T> fmt::Debug for SendError<T> {
    fn fmt<O: fmt::Write>(&self, f: &mut fmt::Formatter<O>) -> fmt::Result {
        f.write_str("SendError(..)")
    }
}

impl<T> fmt::Display for SendError<T> {
    fn fmt<O: fmt::Write>(&self, f: &mut fmt::Formatter<O>) -> fmt::Result {
        f.write_str("sending on a closed channel")
    }
}

impl<T: Drop> std::error::Error for SendError<T> {}

/// Why a value was not sent at once; the value comes back. It ports `mea::mpsc::TrySendError`.
#[derive(Drop, PartialEq, Eq)]
pub enum TrySendError<T> {
    /// As many messages are queued as there is room for.
    Full(T),
    /// The receiver has ended.
    Disconnected(T),
}

impl<T> TrySendError<T> {
    ghost use Rattle.mea_chan_core.specs.Errors.{unsent};

    /// The value that was not sent.
    pub fn as_inner(&self) -> &T
        ensures { result.now ≡ unsent self.now }
    {
        match self {
            TrySendError::Full(value) | TrySendError::Disconnected(value) => value,
        }
    }

    /// The value that was not sent.
    pub fn into_inner(self) -> T
        ensures { result ≡ unsent self }
    {
        match self {
            TrySendError::Full(value) | TrySendError::Disconnected(value) => value,
        }
    }
}

// The value is not shown, and nothing is asked of its type.
impl<T> fmt::Debug for TrySendError<T> {
    fn fmt<O: fmt::Write>(&self, f: &mut fmt::Formatter<O>) -> fmt::Result {
        f.write_str(match self {
            TrySendError::Full(_) => "Full(..)",
            TrySendError::Disconnected(_) => "Disconnected(..)",
        })
    }
}

impl<T> fmt::Display for TrySendError<T> {
    fn fmt<O: fmt::Write>(&self, f: &mut fmt::Formatter<O>) -> fmt::Result {
        match self {
            TrySendError::Full(_) => f.write_str("sending on a full channel"),
            TrySendError::Disconnected(_) => f.write_str("sending on a closed channel"),
        }
    }
}

impl<T: Drop> std::error::Error for TrySendError<T> {}

/// Why a value was not sent on an unbounded channel; the value comes back. Where the crate `mea` answers a
/// `SendError` and aborts for want of memory, this answers either.
#[derive(Drop, PartialEq, Eq)]
pub enum UnboundedError<T> {
    /// The receiver has ended.
    Closed(T),
    /// There was no memory for the message.
    NoMemory(T),
}

impl<T> UnboundedError<T> {
    ghost use Rattle.mea_chan_core.specs.Errors.{unqueued};

    /// The value that was not sent.
    pub fn as_inner(&self) -> &T
        ensures { result.now ≡ unqueued self.now }
    {
        match self {
            UnboundedError::Closed(value) | UnboundedError::NoMemory(value) => value,
        }
    }

    /// The value that was not sent.
    pub fn into_inner(self) -> T
        ensures { result ≡ unqueued self }
    {
        match self {
            UnboundedError::Closed(value) | UnboundedError::NoMemory(value) => value,
        }
    }
}

// The value is not shown, and nothing is asked of its type.
impl<T> fmt::Debug for UnboundedError<T> {
    fn fmt<O: fmt::Write>(&self, f: &mut fmt::Formatter<O>) -> fmt::Result {
        f.write_str(match self {
            UnboundedError::Closed(_) => "Closed(..)",
            UnboundedError::NoMemory(_) => "NoMemory(..)",
        })
    }
}

impl<T> fmt::Display for UnboundedError<T> {
    fn fmt<O: fmt::Write>(&self, f: &mut fmt::Formatter<O>) -> fmt::Result {
        match self {
            UnboundedError::Closed(_) => f.write_str("sending on a closed channel"),
            UnboundedError::NoMemory(_) => f.write_str("out of memory"),
        }
    }
}

impl<T: Drop> std::error::Error for UnboundedError<T> {}

/// No value comes any more. It ports `mea::mpsc::RecvError`.
#[derive(Clone, Copy, Debug, PartialEq, Eq, Error)]
pub enum RecvError {
    /// The channel has ended: nothing is queued, and no sender lives or the receiver has ended.
    #[error("receiving on a closed channel")]
    Disconnected,
}

/// Why no value was received at once. It ports `mea::mpsc::TryRecvError`.
#[derive(Clone, Copy, Debug, PartialEq, Eq, Error)]
pub enum TryRecvError {
    /// Nothing is queued, and a sender lives.
    #[error("receiving on an empty channel")]
    Empty,
    /// No value comes any more.
    #[error("receiving on a closed channel")]
    Disconnected,
}
