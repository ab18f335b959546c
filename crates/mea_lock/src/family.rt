ghost use Rattle.std.specs.Prelude.{◌≡◌, ◌≤◌, is_some, IfSome};
ghost use Rattle.mea_lock_model.specs.Locks.{is_named};
ghost use Rattle.mea_lock_model.specs.Condvars.{is_condvar};
ghost use Rattle.mea_lock.specs.Cores.{as_rw};
ghost use Rattle.mea_lock.specs.Lends.{StandsFor, ListsAs};

use crate::kinds::Kinds;
use crate::meaning::meaning_of;
use mea_base::Ready;
use mea_by_name::NamedWaker;
use mea_events::LockEvent;
use mea_family::{Reply, Stop};
use mea_family_hall::{Family, FamilyHall};
use mea_lock_core::{CondvarCore, MutexCore, RwCore};
use mea_lock_model::wakes_are_of_the_registered;
use std::alloc::Global;
use std::marker::Model;

/// Locks and condition variables as the model has them, where a type has to stand for them.
#[derive(Drop)]
pub struct LockModel;

impl Model for LockModel {
    ghost use Rattle.mea_lock_model.specs.LockHall as model;

    ghost Value = { model.LockHall };

    ghost coded = { model.hall_code };

    ghost view = { λ _. model.empty_hall };
}

/// Many locks and condition variables, with the wakers that they have made ready.
pub type LockHall = FamilyHall<LockFamily, LockModel>;

/// Many mutexes, reader-writer locks and condition variables with their futures and guards, each by the number of the
/// event that made it.
///
/// Each lock is a core of its own; a future keeps its wait. Its waker carries the future's name, so the core's
/// queue tells who waits. Each event costs a few look-ups by name and the wakers that it makes ready.
pub struct LockFamily {
    kinds: Kinds,
    // The least number that the next event may have, which may be 2^64.
    next: u128,
}

impl Model for LockFamily {
    ghost use Rattle.mea_family.specs.Play.{Part, part_code};
    ghost use Rattle.mea_lock_model.specs.LockHall as model;

    ghost Value = { Part model.LockHall };

    ghost coded = { part_code model.hall_code };

    ghost use Rattle.mea_lock.specs.Halls.{hall_of, AreBelow};

    ghost view = { λ a. record { hall = hall_of a.kinds.mutexes a.kinds.rw_locks a.kinds.condvars; next = a.next } };

    ghost invariant = { λ a. AreBelow a.kinds.mutexes a.kinds.rw_locks a.kinds.condvars a.next };
}

// Written out: a derived one is proved anew in each crate that hands a value of this type to a generic function.
impl Drop for LockFamily {
    fn drop(self) {
        let LockFamily { kinds: _, next: _ } = self;
    }
}

impl LockFamily {
    /// The core of the mutex of this name, where it is still named. It takes no memory.
    pub fn mutex(&self, name: u64) -> Option<&MutexCore<u64, NamedWaker>>
        ensures named { is_some result ≡ is_named self.now.hall.mutexes name }
        ensures stands { IfSome result (λ core. StandsFor self.now.hall.mutexes name (as_rw core.now)) }
    {
        self.kinds.mutexes.core(name)
    }

    /// The core of the reader-writer lock of this name, where it is still named. It takes no memory.
    pub fn rw_lock(&self, name: u64) -> Option<&RwCore<u64, NamedWaker>>
        ensures named { is_some result ≡ is_named self.now.hall.rw_locks name }
        ensures stands { IfSome result (λ core. StandsFor self.now.hall.rw_locks name core.now) }
    {
        self.kinds.rw_locks.core(name)
    }

    /// The core of the condition variable of this name, where there is one. It takes no memory.
    pub fn condvar(&self, name: u64) -> Option<&CondvarCore<NamedWaker>>
        ensures there { is_some result ≡ is_condvar self.now.hall.condvars name }
        ensures lists { IfSome result (λ core. ListsAs self.now.hall.condvars name core.now) }
    {
        self.kinds.condvars.core(name)
    }
}

impl Family<LockModel> for LockFamily {
    ghost use Rattle.mea_lock_model.specs.LockHall as model;
    ghost use Rattle.mea_lock_model.specs.Meaning as meaning;
    ghost use Rattle.mea_lock_model.specs.Valid.{AllFit};
    ghost use Rattle.mea_lock.specs.Halls as halls;

    type Event = LockEvent;

    ghost part_of = { λ p. p };

    ghost empty = { model.empty_hall };

    ghost registered = { λ h. model.registered h };

    ghost IsValid = { λ h _. AllFit h };

    ghost cause_of = { λ h e. meaning.cause_of h e };

    ghost step = { λ h i e. meaning.step h i e };

    ghost TakesNoMemory = { λ e. halls.TakesNoMemory e };

    fn new(alloc: Global) -> Self {
        LockFamily {
            kinds: Kinds::new(alloc),
            next: 0,
        }
    }

    fn is_valid(&self) {
        self.kinds.mutexes.guards_fit();
        self.kinds.rw_locks.guards_fit();
    }

    fn cause(&self, event: &LockEvent) -> Option<Stop> {
        self.kinds.cause(meaning_of(event))
    }

    fn act(
        &mut self,
        number: u64,
        event: &LockEvent,
        ready: &mut Ready<u64>,
    ) -> Result<Reply, Stop> {
        wakes_are_of_the_registered();
        let answer = self.kinds.act(number, meaning_of(event), ready)?;
        self.next = number as u128 + 1;
        Ok(answer)
    }
}
