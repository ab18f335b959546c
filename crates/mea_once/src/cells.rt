ghost use Rattle.std.specs.Prelude.{◌≡◌};
ghost use Rattle.mea_once.specs.Cores.{cell_seen, IsSoundCell};
ghost use Rattle.mea_once_model.specs.declared.whole_use.WholeUse.TheVariants.{Writes};
ghost use Rattle.mea_once_model.specs.Cells.{value_after, reply_to};

use crate::errands::content;
use crate::scripted::Scripted;
use crate::turn_core::{TurnCore, WholeCore};
use mea_base::{NoMemory, Poll};
use mea_by_name::NamedWaker;
use mea_family::{Reply, Word};
use mea_once_core::{CellCore, CellStage, CellTurn, InitCall};
use mea_once_model::WholeUse;
use std::alloc::Global;

impl TurnCore for CellCore<u64, NamedWaker> {
    ghost use Rattle.std.specs.Prelude.{false};
    ghost use Rattle.mea_once.specs.Cores.{cell_seen};

    ghost seen_as = { cell_seen };

    ghost is_once = { false };

    fn empty(alloc: Global) -> Self {
        CellCore::new(alloc)
    }

    fn value(&self) -> Option<u64> {
        let _ = CellCore::is_full(self);
        match CellCore::get(self) {
            Some(value) => Some(*value),
            None => None,
        }
    }

    fn waiting(&self) -> usize {
        CellCore::waiting(self)
    }

    fn registered(&self) -> usize {
        0
    }

    fn next_wake(&mut self) -> Option<NamedWaker> {
        CellCore::next_wake(self)
    }

    fn poll_turn(
        &mut self,
        stage: &mut CellStage,
        waker: NamedWaker,
    ) -> Result<CellTurn<NamedWaker>, NoMemory> {
        let _ = CellCore::is_full(self);
        match CellCore::poll_turn(self, stage, waker) {
            Ok(turn) => Ok(turn),
            Err(_) => Err(NoMemory),
        }
    }

    fn fill(&mut self, stage: &mut CellStage, value: u64) {
        CellCore::fill(self, stage, value);
    }

    fn give_up(&mut self, stage: &mut CellStage) {
        CellCore::give_up(self, stage);
    }

    fn leave(&mut self, stage: CellStage) {
        CellCore::end_init(self, InitCall { init: (), stage });
    }
}

impl WholeCore for CellCore<u64, NamedWaker> {
    fn full(alloc: Global, value: u64) -> Self {
        CellCore::from_value(alloc, value)
    }

    fn poll_alone(&mut self, init: &mut Scripted, waker: NamedWaker) -> Poll<Result<(), u64>> {
        CellCore::poll_mut(self, init, waker)
    }

    fn use_whole(&mut self, what: WholeUse) -> Reply {
        match what {
            WholeUse::Tells => content(self.value()),
            WholeUse::Writes(value) => write_value(self, value),
            WholeUse::Takes => content(CellCore::take(self)),
        }
    }

    fn into_value(self) -> Option<u64> {
        CellCore::into_inner(self)
    }
}

// Writes the value of a cell where there is one.
fn write_value(core: &mut CellCore<u64, NamedWaker>, value: u64) -> Reply
    requires { core.old.permit.free ≡ 1 }
    ensures reply { result ≡ reply_to (Writes value) core.old.value }
    ensures is { core.new ≡ record core.old { value = value_after (Writes value) core.old.value } }
    ensures sound { IsSoundCell (cell_seen core.new) }
{
    let _ = CellCore::is_full(core);
    match CellCore::get_mut(core) {
        Some(there) => {
            *there = value;
            Reply(Word::Done)
        }
        None => Reply(Word::Lacking),
    }
}
