use crate::lock_core::{LockCore, LoweredCore};
use mea_base::{NoMemory, Turn};
use mea_by_name::NamedWaker;
use mea_lock_core::{RwCore, RwWait};
use std::alloc::Global;

impl LockCore for RwCore<u64, NamedWaker> {
    type Wait = RwWait;

    ghost lock_of = { λ l. l };

    ghost wait_of = { λ x. x };

    ghost use Rattle.std.specs.Prelude.{false};

    ghost is_only_written = { false };

    fn make(alloc: Global, value: u64, most: usize) -> Self {
        RwCore::new(alloc, value, most)
    }

    fn writes(wait: &RwWait) -> bool {
        !matches!(wait, RwWait::Read { .. })
    }

    fn new_wait(&self, write: bool) -> RwWait {
        if write {
            RwWait::write()
        } else {
            RwWait::read()
        }
    }

    fn queue_len(&self) -> usize {
        RwCore::queue_len(self)
    }

    fn keeps_out(&self, write: bool) -> bool {
        let writing = self.is_writing();
        let readers = self.readers();
        writing || (write && readers > 0)
    }

    fn next_wake(&mut self) -> Option<NamedWaker> {
        RwCore::next_wake(self)
    }

    fn poll(&mut self, wait: &mut RwWait, waker: NamedWaker) -> Result<Turn<NamedWaker>, NoMemory> {
        match RwCore::poll(self, wait, waker) {
            Ok(turn) => Ok(turn),
            Err(_) => Err(NoMemory),
        }
    }

    fn cancel(&mut self, wait: RwWait) {
        RwCore::cancel(self, wait);
    }

    fn try_lock(&mut self, write: bool) -> bool {
        if write {
            self.try_write()
        } else {
            self.try_read()
        }
    }

    fn unlock(&mut self, write: bool) {
        if write {
            self.unlock_write();
        } else {
            self.unlock_read();
        }
    }

    fn value_by(&self, _write: bool) -> u64 {
        *RwCore::value(self)
    }

    fn set_value(&mut self, value: u64) {
        *RwCore::value_mut(self) = value;
    }

    fn idle_value(&mut self) -> u64 {
        *RwCore::get_mut(self)
    }

    fn set_idle_value(&mut self, value: u64) {
        *RwCore::get_mut(self) = value;
    }

    fn into_value(self) -> u64 {
        RwCore::into_inner(self)
    }
}

impl LoweredCore for RwCore<u64, NamedWaker> {
    fn lower(&mut self) {
        self.downgrade();
    }
}
