use crate::mailbox_core::{MailboxCore, SingleCore};
use mea_base::{NoMemory, Poll};
use mea_chan_core::{OneshotCore, RecvError, TryRecvError};
use std::alloc::Global;

impl MailboxCore for OneshotCore<u64, u64> {
    ghost use Rattle.std.specs.Prelude.{true};
    ghost use Rattle.mea_chan.specs.Cores.{of_oneshot};

    ghost mailbox_of = { of_oneshot };

    ghost falls = { true };

    fn make(_alloc: Global) -> Self {
        OneshotCore::new()
    }

    fn kept_wakers(&self) -> usize {
        usize::from(self.is_waiting())
    }

    fn is_over(&self) -> bool {
        OneshotCore::is_closed(self) && !self.end_sender_allowed()
    }

    fn next_wake(&mut self) -> Option<u64> {
        OneshotCore::next_wake(self)
    }

    fn try_recv(&mut self) -> Result<u64, TryRecvError> {
        OneshotCore::try_recv(self)
    }

    fn poll_recv(&mut self, waker: u64) -> Result<Result<u64, TryRecvError>, NoMemory> {
        match OneshotCore::poll_recv(self, waker) {
            Poll::Ready(Ok(message)) => Ok(Ok(message)),
            Poll::Ready(Err(RecvError::Disconnected)) => Ok(Err(TryRecvError::Disconnected)),
            Poll::Pending => Ok(Err(TryRecvError::Empty)),
        }
    }

    fn end_sender(&mut self) {
        OneshotCore::end_sender(self);
    }

    fn end_receiver(&mut self) {
        OneshotCore::end_receiver(self);
    }
}

impl SingleCore for OneshotCore<u64, u64> {
    fn send_last(&mut self, message: u64) -> bool {
        match OneshotCore::send(self, message) {
            Ok(()) => true,
            Err(_) => {
                OneshotCore::end_sender(self);
                false
            }
        }
    }

    fn is_closed(&self) -> bool {
        OneshotCore::is_closed(self)
    }

    fn has_message(&self) -> bool {
        OneshotCore::has_message(self)
    }

    fn is_disconnected(&self) -> bool {
        OneshotCore::is_disconnected(self)
    }
}
