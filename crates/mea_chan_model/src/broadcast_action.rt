/// What a line does to broadcast channels. In each action `s` is the name of a sender, `r` that of a receiver, and `f` that
/// of a future.
#[derive(Clone, Copy)]
pub enum BroadcastAction {
    /// Makes a channel whose ring keeps so many messages or more, with a sender and a receiver.
    Make(u64),
    /// Makes a further sender, beside one: `s`.
    CopySender(u64),
    /// Sends a message to all receivers: `s`, message.
    SendAll(u64, u64),
    /// Ends a sender: `s`.
    EndSender(u64),
    /// Makes a receiver of what is sent from now on, beside a sender: `s`.
    Subscribe(u64),
    /// Makes one beside a receiver: `r`.
    Resubscribe(u64),
    /// Makes one that has passed the same messages: `r`.
    CopyReceiver(u64),
    /// Takes the next message, if there is one: `r`.
    Hear(u64),
    /// Ends a receiver: `r`.
    EndReceiver(u64),
    /// Makes a future that uses a receiver alone: `r`.
    BeginHear(u64),
    /// Polls a future: `f`, waker.
    PollHear(u64, u64),
    /// Ends a future; its waker stays: `f`.
    EndHear(u64),
}
