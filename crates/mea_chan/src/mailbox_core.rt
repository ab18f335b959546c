ghost use Rattle.std.specs.Prelude.{◌≡◌, ◌<◌, ◌+◌, ◌==◌, ◌∷◌, [], length, true, false, option_to_list, OnErr, IfOk, IfSome, IfNone, if◌then◌else◌};
ghost use Rattle.mea_chan_core.specs.Mailbox.{recv_answer, after_recv, without_sender};
ghost use Rattle.mea_chan.specs.Cores.{is_over, message_sent, sent_answer, last_sent, receiver_ended, Receives, has_message, no_message_comes, new_core};

use mea_base::NoMemory;
use mea_chan_core::TryRecvError;
use std::alloc::Global;

/// The core of a channel for one receiver as a hall uses it. Each kind is seen as a channel that never is full. Only
/// `poll_recv` takes memory.
pub trait MailboxCore: Drop {
    ghost use Rattle.std.specs.Prelude.{Bool};
    ghost use Rattle.mea_chan.specs.Cores.{Mailbox};

    ghost mailbox_of: { Self → Mailbox };
    // Whether the receiver's waker falls with it.
    ghost falls: { Bool };

    /// A channel with a sender and a receiver.
    fn make(alloc: Global) -> Self
        ensures { mailbox_of result ≡ new_core };

    /// How many wakers it keeps: one or none.
    fn kept_wakers(&self) -> usize
        ensures { result ≡ length (option_to_list (mailbox_of self.now).waker) };

    /// Whether its receiver has ended and no sender lives.
    fn is_over(&self) -> bool
        ensures { result ≡ is_over (mailbox_of self.now) };

    /// Takes the first waker that is ready.
    fn next_wake(&mut self) -> Option<u64>
        ensures some { IfSome result (λ waker. mailbox_of self.old ≡ record (mailbox_of self.new) { wakes = waker ∷ (mailbox_of self.new).wakes }) }
        ensures none { IfNone result (((mailbox_of self.old).wakes ≡ []) × (mailbox_of self.new ≡ mailbox_of self.old)) };

    /// Takes the first message, if there is one.
    fn try_recv(&mut self) -> Result<u64, TryRecvError>
        ensures answer { result ≡ recv_answer (mailbox_of self.old) }
        ensures after { mailbox_of self.new ≡ after_recv (mailbox_of self.old) };

    /// Takes the first message, or keeps the waker where one may come; then it tells that there is none yet. On an error
    /// nothing has changed.
    fn poll_recv(&mut self, waker: u64) -> Result<Result<u64, TryRecvError>, NoMemory>
        ensures received { IfOk result (λ answer. Receives (mailbox_of self.old) waker answer (mailbox_of self.new)) }
        ensures err { OnErr result (mailbox_of self.new ≡ mailbox_of self.old) };

    /// Ends a sender.
    fn end_sender(&mut self)
        requires some { 0 < (mailbox_of self.old).senders }
        requires quiet { (mailbox_of self.old).wakes ≡ [] }
        ensures { mailbox_of self.new ≡ without_sender (mailbox_of self.old) };

    /// Ends the receiver.
    fn end_receiver(&mut self)
        requires { (mailbox_of self.old).ended ≡ false }
        ensures { mailbox_of self.new ≡ receiver_ended falls (mailbox_of self.old) };
}

/// One that may have many senders, each of which sends many messages. Only `send` takes memory.
pub trait SharedCore: MailboxCore {
    /// Whether no further sender can be made.
    fn is_crowded(&self) -> bool
        ensures { result ≡ ((Self.mailbox_of self.now).senders == 18446744073709551615) };

    /// Makes a further sender.
    fn add_sender(&mut self)
        requires some { 0 < (Self.mailbox_of self.old).senders }
        requires few { ((Self.mailbox_of self.old).senders == 18446744073709551615) ≡ false }
        ensures { Self.mailbox_of self.new ≡ record (Self.mailbox_of self.old) { senders = (Self.mailbox_of self.old).senders + 1 } };

    /// Sends a message, and tells whether anybody will receive it. On an error nothing has changed.
    fn send(&mut self, message: u64) -> Result<bool, NoMemory>
        ensures sent { IfOk result (λ sent. (sent ≡ sent_answer (Self.mailbox_of self.old)) × (Self.mailbox_of self.new ≡ message_sent (Self.mailbox_of self.old) message)) }
        ensures err { OnErr result (Self.mailbox_of self.new ≡ Self.mailbox_of self.old) };
}

/// One for one message, whose sender is gone with it. Its calls take no memory.
pub trait SingleCore: MailboxCore {
    /// Sends the message, and tells whether anybody will receive it; the sender is gone.
    fn send_last(&mut self, message: u64) -> bool
        requires some { 0 < (Self.mailbox_of self.old).senders }
        requires quiet { (Self.mailbox_of self.old).wakes ≡ [] }
        ensures sent { result ≡ sent_answer (Self.mailbox_of self.old) }
        ensures after { Self.mailbox_of self.new ≡ last_sent (Self.mailbox_of self.old) message }
        ensures one { (Self.mailbox_of self.old).senders ≡ 1 };

    /// Whether the receiver has ended.
    fn is_closed(&self) -> bool
        ensures { result ≡ (Self.mailbox_of self.now).ended };

    /// Whether the message is there.
    fn has_message(&self) -> bool
        ensures { result ≡ has_message (Self.mailbox_of self.now) };

    /// Whether no message will come any more.
    fn is_disconnected(&self) -> bool
        ensures { result ≡ no_message_comes (Self.mailbox_of self.now) };
}
