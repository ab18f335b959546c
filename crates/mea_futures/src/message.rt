ghost use Rattle.std.specs.Prelude.{◌≡◌, IfOk};

use crate::bell::Bell;
use mea_base::Poll;
use mea_shot::{Message, Receiver, Recv, RecvError};
use mea_wait::{End, Polled, Unpolled, Waits};
use std::sync::Wait;

/// A wait for the message of a oneshot. It must be polled to its end, or ended; ended, a later send is refused.
///
/// The future of `mea::oneshot` takes no lock, and so is polled without a handle; this is the same with one, for `wait`.
pub struct MessageWait<T: Message + Drop> {
    recv: Recv<T, Bell>,
}

impl<T: Message + Drop> MessageWait<T> {
    /// A wait for the message of this receiver. It takes no memory.
    pub fn new(receiver: Receiver<T, Bell>) -> Self {
        MessageWait {
            recv: receiver.into_future(),
        }
    }
}

impl<T: Message + Drop> End for MessageWait<T> {
    fn end<R: Wait>(self, _rt: &R) {
        let MessageWait { recv } = self;
        recv.end();
    }
}

impl<T: Message + Drop> Waits<Bell, Result<T, RecvError>> for MessageWait<T> {
    ghost gives = { λ _ r. IfOk r (λ m. T.fits m) };

    fn poll<R: Wait>(
        self,
        _rt: &R,
        waker: Bell,
    ) -> Result<Polled<Self, Result<T, RecvError>>, Unpolled<Self, Bell>> {
        let MessageWait { mut recv } = self;
        match recv.poll(waker) {
            Poll::Ready(got) => {
                recv.end();
                Ok(Polled::Ready(got))
            }
            Poll::Pending => Ok(Polled::Pending(MessageWait { recv })),
        }
    }
}
