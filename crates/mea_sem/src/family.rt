ghost use Rattle.std.specs.Prelude.{◌≡◌, ◌≢◌, ◌≤◌, ◌⊎◌, is_some, OnOk, OnErr, IfOk, IfErr, IfSome, None, Some};
ghost use Rattle.mea_sem_model.specs.Hall.{empty_hall};
ghost use Rattle.mea_sem_model.specs.Cause.{cause_of, is_named};
ghost use Rattle.mea_sem_model.specs.Valid.{IsValid};
ghost use Rattle.mea_sem_model.specs.Waiters.{waiters};
ghost use Rattle.mea_sem.specs.Play.{PlaysIn, TakesNoMemory};
ghost use Rattle.mea_sem.specs.StandsFor.{StandsFor};

use crate::actions::Action;
use crate::entries::{EndedEntry, FutureEntry, PermitEntry, SemaphoreEntry};
use crate::grant::Grant;
use mea_base::Ready;
use mea_by_name::{ByName, NameHasher};
use mea_events::SemEvent;
use mea_family::{Answer, Form, Stop};
use mea_sem_core::SemCore;
use std::alloc::Global;
use std::collections::HashMap;
use std::marker::Model;

/// Many semaphores with their futures and permits, each by the number of the event that made it. It keeps no list of
/// wakers: an event is lent the list into which it makes wakers ready.
///
/// Each semaphore is a core of its own; a future keeps its acquire. Each event costs a few look-ups by name
/// and the waiters that it pays, however many wait.
pub struct SemFamily {
    pub(crate) alloc: Global,
    pub(crate) semaphores: HashMap<u64, SemaphoreEntry, NameHasher>,
    // Those of which nothing is left. Room for each is made when the semaphore is.
    pub(crate) ended: Vec<EndedEntry>,
    pub(crate) futures: ByName<FutureEntry>,
    pub(crate) permits: ByName<PermitEntry>,
    // The least number that the next event may have, which may be 2^64.
    pub(crate) next: u128,
}

impl Model for SemFamily {
    ghost use Rattle.mea_family.specs.Play.{Part, part_code};
    ghost use Rattle.mea_sem_model.specs.Hall as model;

    ghost Value = { Part model.Hall };

    ghost coded = { part_code model.hall_code };

    ghost use Rattle.std.specs.FinMap.{entries};
    ghost use Rattle.mea_sem.specs.Store.{store_of, with_ended, hall_of};
    ghost use Rattle.mea_sem.specs.Kept.{AreKept};

    ghost view = { λ a. record { hall = hall_of (store_of (with_ended a.semaphores.entries a.ended.items) (entries a.futures) (entries a.permits)) a.next; next = a.next } };

    ghost invariant = { λ a. AreKept (store_of (with_ended a.semaphores.entries a.ended.items) (entries a.futures) (entries a.permits)) a.next };
}

// Written out: a derived one is proved anew in each crate that hands a value of this type to a generic function.
impl Drop for SemFamily {
    fn drop(self) {
        let SemFamily {
            alloc: _,
            semaphores: _,
            ended: _,
            futures: _,
            permits: _,
            next: _,
        } = self;
    }
}

impl SemFamily {
    /// No semaphore. It takes no memory.
    pub fn new(alloc: Global) -> SemFamily
        ensures { result ≡ record { hall = empty_hall; next = 0 } }
    {
        SemFamily {
            alloc,
            semaphores: HashMap::with_hasher(alloc, NameHasher::new()),
            ended: Vec::new(alloc),
            futures: ByName::new(alloc),
            permits: ByName::new(alloc),
            next: 0,
        }
    }

    /// What holds of all semaphores: at most one future waits for each event that was played. It does nothing.
    pub fn is_valid(&self)
        ensures few { waiters self.now.hall ≤ self.now.next }
        ensures valid { IsValid self.now.hall }
    {
        let _next = self.next;
    }

    /// The core of the semaphore of this name, where it is still named. It takes no memory.
    pub fn core(&self, name: u64) -> Option<&SemCore<u64>>
        ensures named { is_some result ≡ is_named self.now.hall name }
        ensures stands { IfSome result (λ core. StandsFor self.now.hall name core.now) }
    {
        let entry = self.named_entry(name)?;
        Some(&entry.core)
    }

    /// Plays an event, whose number is greater than each that was played before; the wakers that it makes
    /// ready are appended to those that are. Where it is refused, nothing has changed.
    #[tactic(auto, using(crate::proofs::Lists::yield_rests))]
    pub fn act(
        &mut self,
        number: u64,
        event: &SemEvent,
        ready: &mut Ready<u64>,
    ) -> Result<Answer, Stop>
        requires next { self.old.next ≤ number }
        requires room { waiters self.old.hall ≤ ready.old.registered }
        ensures played { IfOk result (λ reply. PlaysIn self.old number event.now reply self.new ready.old ready.new) }
        ensures allowed { OnOk result (cause_of self.old.hall event.now ≡ None) }
        ensures refused { IfErr result (λ stop. (cause_of self.old.hall event.now ≡ Some stop) ⊎ ((cause_of self.old.hall event.now ≡ None) × (stop ≡ Stop.NoMemory))) }
        ensures no_memory { TakesNoMemory event.now → result ≢ Err Stop.NoMemory }
        ensures err { OnErr result ((self.new ≡ self.old) × (ready.new ≡ ready.old)) }
    {
        // Each arm returns, and what an arm calls is inlined: where arms meet, the reply is copied once more.
        match *event {
            SemEvent::New(n) => return self.make(number, n),
            SemEvent::Free(s) => return self.act_on(number, s, Action::Free, ready),
            SemEvent::Forget(s, n) => return self.act_on(number, s, Action::Forget(n), ready),
            SemEvent::Forgetx(s, n) => return self.act_on(number, s, Action::ForgetExact(n), ready),
            SemEvent::Release(s, n) => return self.act_on(number, s, Action::Release(n), ready),
            SemEvent::Try(s, n) => return self.try_permit(number, s, n, Form::Plain),
            SemEvent::Tryo(s, n) => return self.try_permit(number, s, n, Form::Owned),
            SemEvent::Tryf(s, n) | SemEvent::Tryof(s, n) => return self.act_on(
                number,
                s,
                Action::TryAndForget(n),
                ready,
            ),
            SemEvent::Acq(s, n) => return self.acquire(number, s, n, Form::Plain, Grant::Held),
            SemEvent::Acqo(s, n) => return self.acquire(number, s, n, Form::Owned, Grant::Held),
            SemEvent::Acqf(s, n) => return self.acquire(
                number,
                s,
                n,
                Form::Plain,
                Grant::Forgotten,
            ),
            SemEvent::Acqof(s, n) => return self.acquire(
                number,
                s,
                n,
                Form::Owned,
                Grant::Forgotten,
            ),
            SemEvent::Poll(f, waker) => return self.poll(number, f, waker, ready),
            SemEvent::End(x) => return self.end(number, x, ready),
            SemEvent::Lose(p) => return self.lose(number, p),
            SemEvent::Merge(p, q) => return self.merge(number, p, q),
            SemEvent::Split(p, n) => return self.split(number, p, n),
            SemEvent::Size(p) => return self.size(number, p),
            SemEvent::Endsem(s) => return self.act_on(number, s, Action::EndName, ready),
            SemEvent::Ledger(s) => return self.act_on(number, s, Action::Ledger, ready),
            SemEvent::Close(s) => return self.act_on(number, s, Action::Close, ready),
            SemEvent::Closed(s) => return self.act_on(number, s, Action::Closed, ready),
        }
    }
}
