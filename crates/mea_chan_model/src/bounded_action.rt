/// What a line does to bounded channels. In each action `s` is the name of a sender, `r` that of a receiver, and `f` that of
/// a send.
#[derive(Clone, Copy)]
pub enum BoundedAction {
    /// Makes a channel with room for so many messages, with a sender and a receiver.
    Make(u64),
    /// Makes a further sender, beside one: `s`.
    CopySender(u64),
    /// Sends a message at once, or not at all: `s`, message.
    TrySend(u64, u64),
    /// Makes a send that may wait: `s`, message.
    BeginSend(u64, u64),
    /// Polls a send: `f`, waker.
    PollSend(u64, u64),
    /// Ends a send: `f`.
    EndSend(u64),
    /// Takes the first message, if there is one: `r`.
    TryReceive(u64),
    /// Polls a receiver: `r`, waker.
    PollReceive(u64, u64),
    /// Ends a sender that has no send: `s`.
    EndSender(u64),
    /// Ends a receiver: `r`.
    EndReceiver(u64),
}
