use crate::count_core::CountCore;
use crate::new_point::NewPoint;
use mea_base::{NoMemory, Poll};
use mea_by_name::NamedWaker;
use mea_meet_core::{GroupWait, LatchWait, ShutdownCore};
use std::alloc::Global;

impl CountCore for ShutdownCore<NamedWaker> {
    ghost use Rattle.mea_meet.specs.CountCores.{NamedPoint};

    ghost point_of = { λ s. s };

    ghost use Rattle.mea_meet_model.specs.Hall.{Shutdowns};

    ghost kind = { Shutdowns };

    fn make(alloc: Global, _new: NewPoint) -> Self {
        ShutdownCore::new(alloc)
    }

    fn is_set(&self) -> bool {
        self.is_shutdown_now()
    }

    fn members(&self) -> u32 {
        self.receivers()
    }

    fn registered_on_signal(&self) -> usize {
        ShutdownCore::registered_on_signal(self)
    }

    fn registered_on_members(&self) -> usize {
        self.registered_on_receivers()
    }

    fn next_wake(&mut self) -> Option<NamedWaker> {
        ShutdownCore::next_wake(self)
    }

    fn arrive(&mut self, _n: u32) {
        self.signal();
    }

    fn add(&mut self) {
        let _ = self.add_receiver_checked();
    }

    fn leave(&mut self) {
        self.end_receiver_checked();
    }

    fn poll_signal(
        &mut self,
        wait: &mut LatchWait,
        waker: NamedWaker,
    ) -> Result<Poll<()>, NoMemory> {
        match ShutdownCore::poll_signal(self, wait, waker) {
            Ok(turn) => Ok(turn),
            Err(_) => Err(NoMemory),
        }
    }

    fn poll_members(
        &mut self,
        wait: &mut GroupWait,
        waker: NamedWaker,
    ) -> Result<Poll<()>, NoMemory> {
        match self.poll_receivers(wait, waker) {
            Ok(turn) => Ok(turn),
            Err(_) => Err(NoMemory),
        }
    }
}
