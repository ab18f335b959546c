ghost use Rattle.std.specs.Prelude.{◌≡◌, ⊤};
ghost use Rattle.mea_wait.specs.Polls.{Gives, StillGives, IsPollable, IsRefusedFor, HandsBack};
ghost use Rattle.mea_wait.specs.declared.unpolled.PollFault.{PollFault};
ghost use Rattle.mea_wait.specs.declared.unpolled.PollFault.TheVariants.{NoMemory};

use crate::end::End;
use crate::polled::Polled;
use crate::unpolled::Unpolled;
use std::sync::Wait;

/// A wait that must be spent: it is polled until it is ready, or ended. W is its waker and O what it gives.
///
/// It stands in place of Rust's `Future`. O is a parameter, so that an output with a lifetime is shown by a
/// type argument.
pub trait Waits<W, O>: End {
    /// Holds of a wait that may be polled, which each one may that names nothing here.
    ghost can_poll: { Self → Type 0 } = { λ _. ⊤ };

    /// Holds of each output that the wait may give.
    ghost gives: { Self → O → Type 0 } = { λ _ _. ⊤ };

    /// Holds of each cause for which a poll may be refused: want of memory alone, of each wait that names nothing here.
    ghost refuses: { PollFault → Type 0 } = { λ fault. fault ≡ NoMemory };

    /// Holds of the waker that a poll was given, and one that it hands back where it is refused. Of a wait that names nothing
    /// here it is not said that they are the same.
    ghost hands_back: { W → W → Type 0 } = { λ _ _. ⊤ };

    /// Polls the wait: ready with its output, or pending with the waker kept until the next poll. The waker
    /// of the poll before is dropped. Where it is refused, the wait comes back and may be polled again.
    fn poll<R: Wait>(self, rt: &R, waker: W) -> Result<Polled<Self, O>, Unpolled<Self, W>>
        requires { can_poll self }
        ensures value { Gives gives self result }
        ensures same { StillGives gives self result }
        ensures again { IsPollable can_poll result }
        ensures fault { IsRefusedFor refuses result }
        ensures back { HandsBack hands_back waker result };
}
