ghost use Rattle.std.specs.Prelude.{◌≡◌, ◌≤◌, ◌∷◌, [], Bool, nat_eq, Ok, OnErr, IfOk, IfSome, IfNone};
ghost use Rattle.mea_once_core.specs.Keyed.{IsSameKeyed, MayPollKey, MayEndKey, PollsKey, EndsAt, Discards, value_for};
ghost use Rattle.mea_once_core.specs.Waiting.{waiting_in};
ghost use Rattle.mea_once.specs.KeyCores.{NamedKeyed, answers};

use crate::scripted::Scripted;
use mea_base::{NoMemory, Poll};
use mea_by_name::NamedWaker;
use mea_once_core::KeyCall;
use std::alloc::Global;

/// The future of a computation by key in a script.
pub type ScriptedCall = KeyCall<u64, Scripted>;

/// The core of a map or a group as a hall uses it. Only the polls take memory.
pub trait TableCore: Drop {
    ghost use Rattle.std.specs.Prelude.{Bool};
    ghost use Rattle.mea_once.specs.KeyCores.{NamedKeyed};
    ghost use Rattle.mea_once.specs.KeyParts.{IsNewKeyed};

    ghost seen_as: { Self → NamedKeyed };

    // Whether a value is for one round alone, as in a group.
    ghost is_once: { Bool };

    /// One with no key. It takes no memory.
    fn empty(alloc: Global) -> Self
        ensures { IsNewKeyed (seen_as result) };

    /// How many callers wait for their turn in all rounds.
    fn waiting(&self) -> usize
        ensures { result ≡ waiting_in (seen_as self.now).table.slots };

    /// Takes the first waker that is ready.
    fn next_wake(&mut self) -> Option<NamedWaker>
        ensures some { IfSome result (λ waker. seen_as self.old ≡ record (seen_as self.new) { wakes = waker ∷ (seen_as self.new).wakes }) }
        ensures none { IfNone result (((seen_as self.old).wakes ≡ []) × (self.new ≡ self.old)) };

    /// Polls a call. On an error nothing has changed.
    fn poll(
        &mut self,
        call: &mut ScriptedCall,
        waker: NamedWaker,
    ) -> Result<Poll<Result<u64, u64>>, NoMemory>
        requires may { MayPollKey nat_eq (seen_as self.old) call.old }
        ensures polls { IfOk result (λ poll. PollsKey answers nat_eq is_once (seen_as self.old) call.old waker (Ok poll) (seen_as self.new) call.new) }
        ensures err { OnErr result (IsSameKeyed nat_eq (seen_as self.old) (seen_as self.new) × (call.new ≡ call.old)) };

    /// Ends a call.
    fn end(&mut self, call: ScriptedCall)
        requires { MayEndKey nat_eq (seen_as self.old) call }
        ensures { EndsAt nat_eq call.stage (seen_as self.old) call.call.stage (seen_as self.new) };

    /// The key has neither a value nor a round any more.
    fn discard(&mut self, key: u64)
        ensures { Discards nat_eq (seen_as self.old) key (seen_as self.new) };
}

/// The core of a map, whose values stay.
pub trait ValueCore: TableCore {
    /// The value of a key, if it has one.
    fn value(&self, key: u64) -> Option<u64>
        ensures { result ≡ value_for nat_eq (Self.seen_as self.now) key };
}
