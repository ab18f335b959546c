ghost use Rattle.std.specs.Prelude.{◌≡◌, ◌≢◌, ◌≤◌, ◌∷◌, [], ◌⊎◌, length, is_some, OnOk, OnErr, IfOk, IfErr, IfSome, IfNone, None, Some};
ghost use Rattle.mea_sem_model.specs.Hall.{empty_hall};
ghost use Rattle.mea_sem_model.specs.Cause.{cause_of, is_named};
ghost use Rattle.mea_sem_model.specs.Valid.{IsValid};
ghost use Rattle.mea_sem_model.specs.Waiters.{waiters};
ghost use Rattle.mea_sem.specs.Play.{Play, Plays, TakesNoMemory};
ghost use Rattle.mea_sem.specs.StandsFor.{StandsFor};

use crate::family::SemFamily;
use mea_base::Ready;
use mea_events::SemEvent;
use mea_family::{Answer, Stop};
use mea_sem_core::SemCore;
use std::alloc::Global;
use std::marker::Model;

/// Many semaphores with their futures and permits, and the wakers that they have made ready.
pub struct SemHall {
    family: SemFamily,
    ready: Ready<u64>,
}

impl Model for SemHall {
    ghost use Rattle.std.specs.Prelude.{◌≡◌};
    ghost use Rattle.mea_sem_model.specs.Waiters.{waiters};
    ghost use Rattle.mea_sem.specs.Play.{Play, play_code};

    ghost Value = { Play };

    ghost coded = { play_code };

    ghost view = { λ a. record { hall = a.family.hall; wakes = a.ready.wakers; next = a.family.next } };

    ghost invariant = { λ a. a.ready.registered ≡ waiters a.family.hall };
}

// Written out: a derived one is proved anew in each crate that hands a value of this type to a generic function.
impl Drop for SemHall {
    fn drop(self) {
        let SemHall {
            family: _,
            ready: _,
        } = self;
    }
}

impl SemHall {
    /// A hall with nothing in it. It takes no memory.
    pub fn new(alloc: Global) -> SemHall
        ensures { result ≡ record { hall = empty_hall; wakes = []; next = 0 } }
    {
        SemHall {
            family: SemFamily::new(alloc),
            ready: Ready::new(alloc),
        }
    }

    /// How many wakers are ready. It takes no memory.
    pub fn wakes_ready(&self) -> usize
        ensures { result ≡ length self.now.wakes }
    {
        self.ready.len()
    }

    /// Takes the first waker that is ready. It takes no memory.
    pub fn next_wake(&mut self) -> Option<u64>
        ensures some { IfSome result (λ waker. self.old ≡ record self.new { wakes = waker ∷ self.new.wakes }) }
        ensures none { IfNone result ((self.old.wakes ≡ []) × (self.new ≡ self.old)) }
    {
        self.ready.pop()
    }

    /// How many futures wait. One event makes at most so many wakers ready, and at most one future waits for
    /// each event that was played. It takes no memory.
    pub fn registered(&self) -> usize
        ensures count { result ≡ waiters self.now.hall }
        ensures few { result ≤ self.now.next }
        ensures valid { IsValid self.now.hall }
    {
        self.family.is_valid();
        self.ready.registered()
    }

    /// The core of the semaphore of this name, where it is still named. It takes no memory.
    pub fn core(&self, name: u64) -> Option<&SemCore<u64>>
        ensures named { is_some result ≡ is_named self.now.hall name }
        ensures stands { IfSome result (λ core. StandsFor self.now.hall name core.now) }
    {
        self.family.core(name)
    }

    /// Why an event would be refused, but for want of memory; `None` where it would not be. It takes no
    /// memory.
    pub fn cause(&self, event: &SemEvent) -> Option<Stop>
        ensures { result ≡ cause_of self.now.hall event.now }
    {
        self.family.cause(event)
    }

    /// Plays an event, whose number is greater than each that was played before; the wakers that it makes
    /// ready are appended to those that are. Where it is refused, nothing has changed.
    pub fn act(&mut self, number: u64, event: &SemEvent) -> Result<Answer, Stop>
        requires { self.old.next ≤ number }
        ensures played { IfOk result (λ reply. Plays self.old number event.now reply self.new) }
        ensures allowed { OnOk result (cause_of self.old.hall event.now ≡ None) }
        ensures refused { IfErr result (λ stop. (cause_of self.old.hall event.now ≡ Some stop) ⊎ ((cause_of self.old.hall event.now ≡ None) × (stop ≡ Stop.NoMemory))) }
        ensures no_memory { TakesNoMemory event.now → result ≢ Err Stop.NoMemory }
        ensures err { OnErr result (self.new ≡ self.old) }
    {
        self.family.act(number, event, &mut self.ready)
    }
}
