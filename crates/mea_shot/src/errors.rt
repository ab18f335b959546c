ghost use Rattle.std.specs.Prelude.{◌≡◌};

use std::fmt;
use thiserror::Error;

/// A message was not sent, since the receiver has ended; the message comes back. It ports `mea::oneshot::SendError`.
#[derive(Drop, PartialEq, Eq)]
pub struct SendError<T>(pub T);

impl<T> SendError<T> {
    /// The message that was not sent.
    pub fn as_inner(&self) -> &T
        ensures { result.now ≡ self.now.0 }
    {
        &self.0
    }

    /// The message that was not sent.
    pub fn into_inner(self) -> T
        ensures { result ≡ self.0 }
    {
        let SendError(message) = self;
        message
    }
}

// The value is not shown, and nothing is asked of its type.
impl<T> fmt::Debug for SendError<T> {
    fn fmt<O: fmt::Write>(&self, f: &mut fmt::Formatter<O>) -> fmt::Result {
        f.write_str("SendError(..)")
    }
}

impl<T> fmt::Display for SendError<T> {
    fn fmt<O: fmt::Write>(&self, f: &mut fmt::Formatter<O>) -> fmt::Result {
        f.write_str("sending on a closed channel")
    }
}

impl<T: Drop> std::error::Error for SendError<T> {}

/// No message comes any more. It ports `mea::oneshot::RecvError`.
#[derive(Clone, Copy, Debug, PartialEq, Eq, Error)]
pub enum RecvError {
    /// The sender has ended without a message, or the message was received.
    #[error("receiving on a closed channel")]
    Disconnected,
}

/// Why no message was received at once. It ports `mea::oneshot::TryRecvError`.
#[derive(Clone, Copy, Debug, PartialEq, Eq, Error)]
pub enum TryRecvError {
    /// The sender may still send.
    #[error("receiving on an empty channel")]
    Empty,
    /// No message comes any more.
    #[error("receiving on a closed channel")]
    Disconnected,
}
