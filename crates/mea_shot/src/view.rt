/// How far a sender is. Contracts alone speak of it, and no value of it is made.
#[derive(Clone, Copy)]
pub enum SendStage {
    /// It may send.
    Ready,
    /// It knows that the receiver has ended.
    Shut,
    /// It has the message's slot and is about to tell.
    Writing,
    /// The same of one that knows that the receiver has ended.
    WritingShut,
    /// It has found a waker, and the message is not told yet.
    Finishing,
    /// It ends and has found a waker.
    Leaving,
    /// It has sent.
    Sent,
    /// It was refused, since the receiver has ended.
    Refused,
    /// It has ended.
    Gone,
}

/// How far a receiver is. Contracts alone speak of it, and no value of it is made.
pub enum RecvStage<W> {
    /// It may receive.
    Waiting,
    /// It has the waker's slot and is about to publish its waker.
    Holding,
    /// This waker is published.
    Published(W),
    /// The sender is about to wake it.
    Woken,
    /// It knows that the message is there.
    Full,
    /// It has received the message.
    Received,
    /// It knows that the sender has ended without a message.
    Closed,
    /// It has ended.
    Ended,
}

/// What an end of a channel knows. Contracts alone speak of it, and no value of it is made.
pub enum View<W> {
    /// The channel is one, and not parted into its ends yet.
    Whole,
    /// What the sender knows.
    Sends(SendStage),
    /// What the receiver knows.
    Receives(RecvStage<W>),
}
