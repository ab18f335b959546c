use crate::mailbox_core::{MailboxCore, SharedCore};
use mea_base::{NoMemory, Poll};
use mea_chan_core::{RecvError, TryRecvError, UnboundedCore, UnboundedError};
use std::alloc::Global;

impl MailboxCore for UnboundedCore<u64, u64> {
    ghost use Rattle.std.specs.Prelude.{false};

    ghost mailbox_of = { λ m. m };

    ghost falls = { false };

    fn make(alloc: Global) -> Self {
        UnboundedCore::new(alloc)
    }

    fn kept_wakers(&self) -> usize {
        usize::from(self.is_waiting())
    }

    fn is_over(&self) -> bool {
        self.is_closed() && self.senders() == 0
    }

    fn next_wake(&mut self) -> Option<u64> {
        UnboundedCore::next_wake(self)
    }

    fn try_recv(&mut self) -> Result<u64, TryRecvError> {
        UnboundedCore::try_recv(self)
    }

    fn poll_recv(&mut self, waker: u64) -> Result<Result<u64, TryRecvError>, NoMemory> {
        match UnboundedCore::poll_recv(self, waker) {
            Ok(Poll::Ready(Ok(message))) => Ok(Ok(message)),
            Ok(Poll::Ready(Err(RecvError::Disconnected))) => Ok(Err(TryRecvError::Disconnected)),
            Ok(Poll::Pending) => Ok(Err(TryRecvError::Empty)),
            Err(_) => Err(NoMemory),
        }
    }

    fn end_sender(&mut self) {
        UnboundedCore::end_sender(self);
    }

    fn end_receiver(&mut self) {
        UnboundedCore::end_receiver(self);
    }
}

impl SharedCore for UnboundedCore<u64, u64> {
    fn is_crowded(&self) -> bool {
        self.senders() == usize::MAX
    }

    fn add_sender(&mut self) {
        let _ = UnboundedCore::add_sender(self);
    }

    fn send(&mut self, message: u64) -> Result<bool, NoMemory> {
        match UnboundedCore::send(self, message) {
            Ok(()) => Ok(true),
            Err(UnboundedError::Closed(_)) => Ok(false),
            Err(UnboundedError::NoMemory(_)) => Err(NoMemory),
        }
    }
}
