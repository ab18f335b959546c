use crate::lock_core::LockCore;
use mea_base::{NoMemory, Turn};
use mea_by_name::NamedWaker;
use mea_lock_core::{LockWait, MutexCore};
use std::alloc::Global;

impl LockCore for MutexCore<u64, NamedWaker> {
    type Wait = LockWait;

    ghost use Rattle.mea_lock_core.specs.declared.rw_wait.RwWait.TheVariants.{Write};
    ghost use Rattle.mea_lock.specs.Cores.{as_rw};

    ghost lock_of = { as_rw };

    ghost wait_of = { λ a. Write a };

    ghost use Rattle.std.specs.Prelude.{true};

    ghost is_only_written = { true };

    fn make(alloc: Global, value: u64, _most: usize) -> Self {
        MutexCore::new(alloc, value)
    }

    fn writes(_wait: &LockWait) -> bool {
        true
    }

    fn new_wait(&self, _write: bool) -> LockWait {
        LockWait::new()
    }

    fn queue_len(&self) -> usize {
        MutexCore::queue_len(self)
    }

    fn keeps_out(&self, _write: bool) -> bool {
        self.is_held()
    }

    fn next_wake(&mut self) -> Option<NamedWaker> {
        MutexCore::next_wake(self)
    }

    fn poll(
        &mut self,
        wait: &mut LockWait,
        waker: NamedWaker,
    ) -> Result<Turn<NamedWaker>, NoMemory> {
        match MutexCore::poll(self, wait, waker) {
            Ok(turn) => Ok(turn),
            Err(_) => Err(NoMemory),
        }
    }

    fn cancel(&mut self, wait: LockWait) {
        MutexCore::cancel(self, wait);
    }

    fn try_lock(&mut self, _write: bool) -> bool {
        MutexCore::try_lock(self)
    }

    fn unlock(&mut self, _write: bool) {
        MutexCore::unlock(self);
    }

    fn value_by(&self, _write: bool) -> u64 {
        *MutexCore::value(self)
    }

    fn set_value(&mut self, value: u64) {
        *MutexCore::value_mut(self) = value;
    }

    fn idle_value(&mut self) -> u64 {
        *MutexCore::get_mut(self)
    }

    fn set_idle_value(&mut self, value: u64) {
        *MutexCore::get_mut(self) = value;
    }

    fn into_value(self) -> u64 {
        MutexCore::into_inner(self)
    }
}
