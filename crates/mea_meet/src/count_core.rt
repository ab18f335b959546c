ghost use Rattle.std.specs.Prelude.{◌≡◌, ◌≢◌, ◌<◌, ◌==◌, ◌∷◌, [], length, true, false, Ok, OnErr, IfOk, IfSome, IfNone};
ghost use Rattle.mea_sets.specs.WaitSet.{has_given};
ghost use Rattle.mea_sets.specs.Countdown.{PollsCount};
ghost use Rattle.mea_meet.specs.CountCores.{point_from, arrived, joined, parted};
ghost use Rattle.mea_meet.specs.Actions.{new_seen, takes_many, IsNewOf};

use crate::new_point::NewPoint;
use mea_base::{NoMemory, Poll};
use mea_by_name::NamedWaker;
use mea_meet_core::{GroupWait, LatchWait};
use std::alloc::Global;

/// The core of a meeting point that counts, as a hall uses it. Each kind is seen as a shutdown: a latch is one whose
/// receivers have ended, and a wait group one whose signal is set. Only the polls take memory.
pub trait CountCore: Drop {
    ghost use Rattle.mea_meet.specs.CountCores.{NamedPoint};
    ghost use Rattle.mea_meet_model.specs.Hall.{Kind};

    ghost point_of: { Self → NamedPoint };

    ghost kind: { Kind };

    /// A point that nobody waits for. It takes no memory.
    fn make(alloc: Global, new: NewPoint) -> Self
        requires { IsNewOf kind (new_seen new) }
        ensures { point_of result ≡ point_from (new_seen new) };

    /// Whether the count of the signal has ended.
    fn is_set(&self) -> bool
        ensures { result ≡ ((point_of self.now).signal.number == 0) };

    /// How many members it counts.
    fn members(&self) -> u32
        ensures { result ≡ (point_of self.now).receivers.number };

    /// How many wakers are registered for the signal.
    fn registered_on_signal(&self) -> usize
        ensures { result ≡ length (point_of self.now).signal.waiting.wakers };

    /// How many wakers are registered for the end of the members.
    fn registered_on_members(&self) -> usize
        ensures { result ≡ length (point_of self.now).receivers.waiting.wakers };

    /// Takes the first waker that is ready.
    fn next_wake(&mut self) -> Option<NamedWaker>
        ensures some { IfSome result (λ waker. point_of self.old ≡ record (point_of self.new) { wakes = waker ∷ (point_of self.new).wakes }) }
        ensures none { IfNone result (((point_of self.old).wakes ≡ []) × (self.new ≡ self.old)) };

    /// Takes `n` from the signal.
    fn arrive(&mut self, n: u32)
        requires { takes_many kind ≡ false → n ≡ 1 }
        ensures { point_of self.new ≡ arrived (point_of self.old) n };

    /// Counts one member more, where one lives.
    fn add(&mut self)
        requires fits { (point_of self.old).receivers.number ≢ 4294967295 }
        ensures lives { 0 < (point_of self.old).receivers.number → point_of self.new ≡ joined (point_of self.old) true }
        ensures none { (point_of self.old).receivers.number ≡ 0 → point_of self.new ≡ point_of self.old };

    /// Counts one member less, where one lives.
    fn leave(&mut self)
        ensures lives { 0 < (point_of self.old).receivers.number → point_of self.new ≡ parted (point_of self.old) true }
        ensures none { (point_of self.old).receivers.number ≡ 0 → point_of self.new ≡ point_of self.old };

    /// Polls a wait for the signal. On an error nothing has changed.
    fn poll_signal(&mut self, wait: &mut LatchWait, waker: NamedWaker) -> Result<Poll<()>, NoMemory>
        requires { has_given (point_of self.old).signal.waiting wait.old ≡ true }
        ensures polls { IfOk result (λ turn. PollsCount (point_of self.old).signal wait.old waker (Ok turn) (point_of self.new).signal wait.new × (point_of self.new ≡ record (point_of self.old) { signal = (point_of self.new).signal })) }
        ensures err { OnErr result ((self.new ≡ self.old) × (wait.new ≡ wait.old)) };

    /// Polls a wait for the end of the members. On an error nothing has changed.
    fn poll_members(
        &mut self,
        wait: &mut GroupWait,
        waker: NamedWaker,
    ) -> Result<Poll<()>, NoMemory>
        requires { has_given (point_of self.old).receivers.waiting wait.old ≡ true }
        ensures polls { IfOk result (λ turn. PollsCount (point_of self.old).receivers wait.old waker (Ok turn) (point_of self.new).receivers wait.new × (point_of self.new ≡ record (point_of self.old) { receivers = (point_of self.new).receivers })) }
        ensures err { OnErr result ((self.new ≡ self.old) × (wait.new ≡ wait.old)) };
}

/// The core of a meeting point whose signal's count is told.
pub trait NumberedCore: CountCore {
    /// The count of the signal.
    fn number(&self) -> u32
        ensures { result ≡ (Self.point_of self.now).signal.number };
}
