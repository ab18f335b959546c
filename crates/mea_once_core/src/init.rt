ghost use Rattle.std.specs.Prelude.{◌≡◌, ⊤, Result};
ghost use Rattle.mea_sets.specs.Poll.{Poll};

use mea_base::Poll;

/// A computation that is polled until it answers a value or an error.
///
/// A core polls it at most once in each of its own calls, only while the call that it belongs to has the
/// cell's permit, and never again after it answered. It may answer anything at any poll, keep the wakers,
/// wake them at any time or never, and never answer: it has no way to reach the core.
pub trait Init<T, E, W> {
    // When it may be polled: always, where it names nothing else. A closure may be called there.
    ghost may_poll: { Self → Type 0 } = { λ _. ⊤ };

    // What a poll may come to: the initialiser before it, the waker, the answer, the initialiser after it.
    ghost answers: { Self → W → Poll (Result T E) → Self → Type 0 };

    /// Polls it: ready with a value or an error, or pending with the waker kept, and then it may be polled
    /// again.
    fn poll(&mut self, waker: W) -> Poll<Result<T, E>>
        requires { may_poll self.old }
        ensures answers { answers self.old waker result self.new }
        ensures again { result ≡ Poll.Pending → may_poll self.new };
}
