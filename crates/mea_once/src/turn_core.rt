ghost use Rattle.std.specs.Prelude.{◌≡◌, ◌≤◌, ◌∷◌, [], Bool, length, true, is_some, None, Some, OnErr, IfOk, IfSome, IfNone};
ghost use Rattle.mea_sem_core.specs.Core.{held_of};
ghost use Rattle.mea_sets.specs.WaitSet.{has_given};
ghost use Rattle.mea_once_core.specs.Permit.{MayPoll, MayEnd};
ghost use Rattle.mea_once_model.specs.Cells.{value_after, reply_to};
ghost use Rattle.mea_once.specs.Parts.{IsNewCell};
ghost use Rattle.mea_once.specs.Cores.{NamedCell, IsSoundCell, TurnsCell, FillsCell, GivesUpCell, LeavesCell, WaitsCell, RunsAlone, reply_by};

use crate::scripted::Scripted;
use mea_base::{NoMemory, Poll};
use mea_by_name::NamedWaker;
use mea_family::Reply;
use mea_meet_core::LatchWait;
use mea_once_core::{CellStage, CellTurn};
use mea_once_model::WholeUse;
use std::alloc::Global;

/// The core of a cell as a hall uses it. A call that runs once is a cell whose value tells nothing. Only the polls take
/// memory.
pub trait TurnCore: Drop {
    ghost use Rattle.std.specs.Prelude.{Bool};
    ghost use Rattle.mea_once.specs.Cores.{NamedCell};

    ghost seen_as: { Self → NamedCell };

    // Whether it is a call that runs once.
    ghost is_once: { Bool };

    /// An empty one. It takes no memory.
    fn empty(alloc: Global) -> Self
        ensures new { IsNewCell (seen_as result) (seen_as result).value }
        ensures value { (seen_as result).value ≡ None };

    /// The value, if there is one.
    fn value(&self) -> Option<u64>
        ensures is { result ≡ (seen_as self.now).value }
        ensures sound { IsSoundCell (seen_as self.now) };

    /// How many callers wait for their turn.
    fn waiting(&self) -> usize
        ensures { result ≡ length (seen_as self.now).permit.queue };

    /// How many wakers of those who wait until it is full are registered.
    fn registered(&self) -> usize
        ensures count { result ≡ length (seen_as self.now).waits.wakers }
        ensures over { is_some (seen_as self.now).value ≡ true → result ≡ 0 };

    /// Takes the first waker that is ready.
    fn next_wake(&mut self) -> Option<NamedWaker>
        ensures some { IfSome result (λ waker. seen_as self.old ≡
            record (seen_as self.new) { permit = record (seen_as self.new).permit { wakes = waker ∷ (seen_as self.new).permit.wakes } }) }
        ensures none { IfNone result (((seen_as self.old).permit.wakes ≡ []) × (self.new ≡ self.old)) };

    /// Polls a call for its turn. On an error nothing has changed.
    fn poll_turn(
        &mut self,
        stage: &mut CellStage,
        waker: NamedWaker,
    ) -> Result<CellTurn<NamedWaker>, NoMemory>
        requires may { MayPoll (seen_as self.old).permit stage.old }
        requires quiet { (seen_as self.old).permit.wakes ≡ [] }
        ensures turns { IfOk result (λ turn. TurnsCell (seen_as self.old) stage.old waker turn (seen_as self.new) stage.new) }
        ensures err { OnErr result ((self.new ≡ self.old) × (stage.new ≡ stage.old)) };

    /// Fills the cell, for the call whose turn it is.
    fn fill(&mut self, stage: &mut CellStage, value: u64)
        requires held { 1 ≤ held_of (seen_as self.old).permit }
        requires nothing { is_once ≡ true → value ≡ 0 }
        requires quiet { (seen_as self.old).permit.wakes ≡ [] }
        ensures { FillsCell (seen_as self.old) value (seen_as self.new) };

    /// Gives the turn up, for the call whose turn it is.
    fn give_up(&mut self, stage: &mut CellStage)
        requires held { 1 ≤ held_of (seen_as self.old).permit }
        requires quiet { (seen_as self.old).permit.wakes ≡ [] }
        ensures { GivesUpCell (seen_as self.old) (seen_as self.new) };

    /// Ends a call.
    fn leave(&mut self, stage: CellStage)
        requires may { MayEnd (seen_as self.old).permit stage }
        requires quiet { (seen_as self.old).permit.wakes ≡ [] }
        ensures { LeavesCell (seen_as self.old) stage (seen_as self.new) };
}

/// The core of a call that runs once, with those who wait for that.
pub trait WaitCore: TurnCore {
    /// Polls a wait, and tells whether it is over. On an error nothing has changed.
    fn poll_wait(&mut self, wait: &mut LatchWait, waker: NamedWaker) -> Result<bool, NoMemory>
        requires given { has_given (Self.seen_as self.old).waits wait.old ≡ true }
        ensures polls { IfOk result (λ over. WaitsCell (Self.seen_as self.old) wait.old waker over (Self.seen_as self.new) wait.new) }
        ensures sound { IsSoundCell (Self.seen_as self.new) }
        ensures err { OnErr result ((self.new ≡ self.old) × (wait.new ≡ wait.old)) };
}

/// The core of a cell, for who uses it alone.
pub trait WholeCore: TurnCore {
    /// One with this value. It takes no memory.
    fn full(alloc: Global, value: u64) -> Self
        ensures new { IsNewCell (Self.seen_as result) (Self.seen_as result).value }
        ensures value { (Self.seen_as result).value ≡ Some value };

    /// Runs an initialiser where the cell is empty.
    fn poll_alone(&mut self, init: &mut Scripted, waker: NamedWaker) -> Poll<Result<(), u64>>
        requires { (Self.seen_as self.old).permit.free ≡ 1 }
        ensures runs { RunsAlone (Self.seen_as self.old).value (Self.seen_as self.old) init.old.outcome (Self.seen_as self.new) }
        ensures reply { result ≡ reply_by (Self.seen_as self.old).value init.old.outcome }
        ensures nobody { length (Self.seen_as self.old).waits.wakers ≡ 0 }
        ensures sound { IsSoundCell (Self.seen_as self.new) };

    /// Uses the value, and replies.
    fn use_whole(&mut self, what: WholeUse) -> Reply
        requires { (Self.seen_as self.old).permit.free ≡ 1 }
        ensures reply { result ≡ reply_to what (Self.seen_as self.old).value }
        ensures is { Self.seen_as self.new ≡ record (Self.seen_as self.old) { value = value_after what (Self.seen_as self.old).value } }
        ensures sound { IsSoundCell (Self.seen_as self.new) };

    /// The value, with which the cell ends.
    fn into_value(self) -> Option<u64>
        requires { (Self.seen_as self).permit.free ≡ 1 }
        ensures { result ≡ (Self.seen_as self).value };
}
