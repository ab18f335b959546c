ghost use Rattle.std.specs.Prelude.{◌≡◌, ◌↔◌, IsTrue, IsFalse};

/// What a poll answers. It has the variants of `std::task::Poll`.
///
/// It is a type of its own, so that a core stands on no executor: the kit's `futures` has one of the same form, which
/// `mea_futures` gives to tasks.
#[derive(Debug, PartialEq, Eq, Drop)]
pub enum Poll<T> {
    /// It is over, and this is what it gives.
    Ready(T),
    /// It goes on, and the waker is kept until the next poll.
    Pending,
}

impl<T> Poll<T> {
    /// Whether it is over. It ports `std::task::Poll::is_ready`.
    pub fn is_ready(&self) -> bool
        ensures { IsFalse result ↔ (self.now ≡ Poll.Pending) }
    {
        matches!(self, Poll::Ready(_))
    }

    /// Whether it goes on. It ports `std::task::Poll::is_pending`.
    pub fn is_pending(&self) -> bool
        ensures { IsTrue result ↔ (self.now ≡ Poll.Pending) }
    {
        matches!(self, Poll::Pending)
    }
}
