/// What a line may do to an unbounded channel and to a oneshot. In each action `s` is the name of a sender and `r` that of a
/// receiver.
#[derive(Clone, Copy)]
pub enum MailAction {
    /// Makes a channel, with a sender and a receiver: whether that can be polled.
    Make(bool),
    /// Ends a sender: `s`.
    EndSender(u64),
    /// Takes the first message, if there is one: `r`, and whether that can be polled.
    Receive(u64, bool),
    /// Polls a receiver: `r`, waker.
    Poll(u64, u64),
    /// Ends a receiver: `r`, and whether that can be polled.
    EndReceiver(u64, bool),
}

/// What a line does to unbounded channels.
#[derive(Clone, Copy)]
pub enum UnboundedAction {
    /// What it may do to a oneshot too.
    Mail(MailAction),
    /// Makes a further sender, beside one: `s`.
    Copy(u64),
    /// Sends a message: `s`, message.
    Send(u64, u64),
}

/// What a line does to oneshots.
#[derive(Clone, Copy)]
pub enum OneshotAction {
    /// What it may do to an unbounded channel too.
    Mail(MailAction),
    /// Sends the message, and the sender is gone: `s`, message.
    SendLast(u64, u64),
    /// Makes a receiver a future: `r`.
    IntoFuture(u64),
    /// Tells whether the receiver has ended: `s`.
    TellClosed(u64),
    /// Tells whether no message will come any more: `r`.
    TellOver(u64),
    /// Tells whether the message is there: `r`.
    TellMessage(u64),
}
