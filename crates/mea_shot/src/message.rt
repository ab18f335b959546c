/// What a message has to be: the receiver may rely on what its type says here of each message, and the sender owes it.
pub trait Message {
    /// What is known of a message that was sent.
    ghost fits: { Self → Type 0 };
}

/// A message of which nothing has to be known.
#[derive(Drop)]
pub struct Plain<T>(pub T);

impl<T> Message for Plain<T> {
    ghost fits = { λ _. Unit {0} };
}

/// What a slot may hold.
#[derive(Drop)]
pub enum Content<T, W> {
    /// The message.
    Message(T),
    /// The waker of the receiver.
    Waker(W),
}
