use crate::count_core::{CountCore, NumberedCore};
use crate::new_point::NewPoint;
use mea_base::{NoMemory, Poll};
use mea_by_name::NamedWaker;
use mea_meet_core::{GroupWait, LatchCore, LatchWait};
use std::alloc::Global;

impl CountCore for LatchCore<NamedWaker> {
    ghost use Rattle.mea_meet.specs.CountCores.{latch_seen};

    ghost point_of = { latch_seen };

    ghost use Rattle.mea_meet_model.specs.Hall.{Latches};

    ghost kind = { Latches };

    fn make(alloc: Global, new: NewPoint) -> Self {
        LatchCore::new(alloc, new.signal)
    }

    fn is_set(&self) -> bool {
        self.count() == 0
    }

    fn members(&self) -> u32 {
        0
    }

    fn registered_on_signal(&self) -> usize {
        self.registered()
    }

    fn registered_on_members(&self) -> usize {
        0
    }

    fn next_wake(&mut self) -> Option<NamedWaker> {
        LatchCore::next_wake(self)
    }

    fn arrive(&mut self, n: u32) {
        LatchCore::arrive(self, n);
    }

    fn add(&mut self) {}

    fn leave(&mut self) {}

    fn poll_signal(
        &mut self,
        wait: &mut LatchWait,
        waker: NamedWaker,
    ) -> Result<Poll<()>, NoMemory> {
        match self.poll(wait, waker) {
            Ok(turn) => Ok(turn),
            Err(_) => Err(NoMemory),
        }
    }

    fn poll_members(
        &mut self,
        _wait: &mut GroupWait,
        _waker: NamedWaker,
    ) -> Result<Poll<()>, NoMemory> {
        Ok(Poll::Ready(()))
    }
}

impl NumberedCore for LatchCore<NamedWaker> {
    fn number(&self) -> u32 {
        self.count()
    }
}
