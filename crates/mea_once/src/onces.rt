ghost use Rattle.std.specs.Prelude.{true};

use crate::turn_core::{TurnCore, WaitCore};
use mea_base::{NoMemory, Poll};
use mea_by_name::NamedWaker;
use mea_meet_core::LatchWait;
use mea_once_core::{CellStage, CellTurn, InitCall, OnceCore};
use std::alloc::Global;

impl TurnCore for OnceCore<NamedWaker> {
    ghost use Rattle.std.specs.Prelude.{true};
    ghost use Rattle.mea_once.specs.Cores.{once_seen};

    ghost seen_as = { once_seen };

    ghost is_once = { true };

    fn empty(alloc: Global) -> Self {
        OnceCore::new(alloc)
    }

    fn value(&self) -> Option<u64> {
        if OnceCore::is_completed(self) {
            Some(0)
        } else {
            None
        }
    }

    fn waiting(&self) -> usize {
        OnceCore::waiting(self)
    }

    fn registered(&self) -> usize {
        let _ = OnceCore::is_completed(self);
        OnceCore::registered(self)
    }

    fn next_wake(&mut self) -> Option<NamedWaker> {
        OnceCore::next_wake(self)
    }

    fn poll_turn(
        &mut self,
        stage: &mut CellStage,
        waker: NamedWaker,
    ) -> Result<CellTurn<NamedWaker>, NoMemory> {
        let _ = OnceCore::is_completed(self);
        match OnceCore::poll_turn(self, stage, waker) {
            Ok(turn) => Ok(turn),
            Err(_) => Err(NoMemory),
        }
    }

    fn fill(&mut self, stage: &mut CellStage, _value: u64) {
        let _ = OnceCore::is_completed(self);
        OnceCore::complete(self, stage);
    }

    fn give_up(&mut self, stage: &mut CellStage) {
        let _ = OnceCore::is_completed(self);
        OnceCore::give_up(self, stage);
    }

    fn leave(&mut self, stage: CellStage) {
        let _ = OnceCore::is_completed(self);
        OnceCore::end_call(self, InitCall { init: (), stage });
    }
}

impl WaitCore for OnceCore<NamedWaker> {
    fn poll_wait(&mut self, wait: &mut LatchWait, waker: NamedWaker) -> Result<bool, NoMemory> {
        let _ = OnceCore::is_completed(self);
        match OnceCore::poll_wait(self, wait, waker) {
            Ok(Poll::Ready(())) => Ok(true),
            Ok(Poll::Pending) => Ok(false),
            Err(_) => Err(NoMemory),
        }
    }
}
