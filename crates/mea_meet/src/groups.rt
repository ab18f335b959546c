use crate::count_core::CountCore;
use crate::new_point::NewPoint;
use mea_base::{NoMemory, Poll};
use mea_by_name::NamedWaker;
use mea_meet_core::{GroupCore, GroupWait, LatchWait};
use std::alloc::Global;

impl CountCore for GroupCore<NamedWaker> {
    ghost use Rattle.mea_meet.specs.CountCores.{group_seen};

    ghost point_of = { group_seen };

    ghost use Rattle.mea_meet_model.specs.Hall.{Groups};

    ghost kind = { Groups };

    fn make(alloc: Global, _new: NewPoint) -> Self {
        GroupCore::new(alloc)
    }

    fn is_set(&self) -> bool {
        true
    }

    fn members(&self) -> u32 {
        self.handles()
    }

    fn registered_on_signal(&self) -> usize {
        0
    }

    fn registered_on_members(&self) -> usize {
        self.registered()
    }

    fn next_wake(&mut self) -> Option<NamedWaker> {
        GroupCore::next_wake(self)
    }

    fn arrive(&mut self, _n: u32) {}

    fn add(&mut self) {
        let _ = self.add_checked();
    }

    fn leave(&mut self) {
        self.leave_checked();
    }

    fn poll_signal(
        &mut self,
        _wait: &mut LatchWait,
        _waker: NamedWaker,
    ) -> Result<Poll<()>, NoMemory> {
        Ok(Poll::Ready(()))
    }

    fn poll_members(
        &mut self,
        wait: &mut GroupWait,
        waker: NamedWaker,
    ) -> Result<Poll<()>, NoMemory> {
        match self.poll(wait, waker) {
            Ok(turn) => Ok(turn),
            Err(_) => Err(NoMemory),
        }
    }
}
