ghost use Rattle.std.specs.Prelude.{◌≡◌, ◌≤◌};
ghost use Rattle.mea_lock_model.specs.LockHall.{empty_hall, registered};
ghost use Rattle.mea_lock_model.specs.Meaning.{cause_by};
ghost use Rattle.mea_lock.specs.Actions.{meant, FitsMeaning};
ghost use Rattle.mea_lock.specs.Halls.{hall_of, AreBelow, ActsBy};

use crate::meaning::Meaning;
use crate::part::LockPart;
use crate::wait_part::WaitPart;
use mea_base::Ready;
use mea_by_name::NamedWaker;
use mea_family::{Reply, Stop, unknown_unless};
use mea_lock_core::{MutexCore, RwCore};
use std::alloc::Global;

/// The locks of each kind, and the condition variables. An event on one kind of lock leaves the others as they are.
#[derive(Drop)]
pub struct Kinds {
    pub mutexes: LockPart<MutexCore<u64, NamedWaker>>,
    pub rw_locks: LockPart<RwCore<u64, NamedWaker>>,
    pub condvars: WaitPart,
}

impl Kinds {
    /// No lock. It takes no memory.
    pub fn new(alloc: Global) -> Self
        ensures hall { hall_of result.mutexes result.rw_locks result.condvars ≡ empty_hall }
        ensures below { AreBelow result.mutexes result.rw_locks result.condvars 0 }
    {
        Kinds {
            mutexes: LockPart::new(alloc),
            rw_locks: LockPart::new(alloc),
            condvars: WaitPart::new(alloc),
        }
    }

    /// Why an event that means this would be refused; None where it would not. It takes no memory.
    pub fn cause(&self, meaning: Meaning) -> Option<Stop>
        ensures { result ≡ cause_by (hall_of self.now.mutexes self.now.rw_locks self.now.condvars) (meant meaning) }
    {
        match meaning {
            Meaning::Mutexes(action) => self.mutexes.cause(action),
            Meaning::RwLocks(action) => self.rw_locks.cause(action),
            Meaning::Lowers(g) => unknown_unless(self.rw_locks.write_guard(g).is_some()),
            Meaning::Condvars(action) => self.condvars.cause(&self.mutexes, action),
        }
    }

    /// Plays an event that means this, or finds why it is refused. On an error nothing has changed.
    pub fn act(
        &mut self,
        number: u64,
        meaning: Meaning,
        ready: &mut Ready<u64>,
    ) -> Result<Reply, Stop>
        requires fits { FitsMeaning meaning }
        requires below { AreBelow self.old.mutexes self.old.rw_locks self.old.condvars number }
        requires room { registered (hall_of self.old.mutexes self.old.rw_locks self.old.condvars) ≤ ready.old.registered }
        ensures { ActsBy (meant meaning) self.old.mutexes self.old.rw_locks self.old.condvars number result self.new.mutexes self.new.rw_locks self.new.condvars ready.old ready.new }
    {
        match meaning {
            Meaning::Mutexes(action) => self.mutexes.act(number, action, ready),
            Meaning::RwLocks(action) => self.rw_locks.act(number, action, ready),
            Meaning::Lowers(g) => self.rw_locks.lower(number, g, ready),
            Meaning::Condvars(action) => self
                .condvars
                .act(&mut self.mutexes, number, action, ready),
        }
    }
}
