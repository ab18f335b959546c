ghost use Rattle.std.specs.Prelude.{◌≡◌, ◌≢◌, ◌≤◌, IfSome, is_some, None, Some, true};
ghost use Rattle.std.specs.FinMap as map;
ghost use Rattle.mea_family.specs.Causes.{borrowed_by};
ghost use Rattle.mea_family.specs.Forms.{is_plain};
ghost use Rattle.mea_share_model.specs.Admissions.{empty_hall, is_named, is_future, is_permit, plain_of, registered};
ghost use Rattle.mea_share_model.specs.Actions.{Make, Free, Waiters, Weight, Weigh, Try, Begin, Poll as PollIt, Key, End, Drop, cause_in};
ghost use Rattle.mea_share_model.specs.Valid.{AreValid};
ghost use Rattle.mea_share.specs.Actions.{meant};
ghost use Rattle.mea_share.specs.Halls.{Acts, ActsQuietly};
ghost use Rattle.mea_share_core.specs.Fair.{waiters_of};
ghost use Rattle.mea_share_model.specs.Next.{waiting_in};
ghost use Rattle.mea_share.specs.Kept.{shares_seen};
ghost use Rattle.mea_share.specs.Lends.{StandsFor, AreSettled};

use crate::actions::ShareAction;
use crate::admission_entry::{AdmissionEntry, Core};
use crate::future_entry::FutureEntry;
use crate::permit_entry::PermitEntry;
use mea_base::{Poll, Ready};
use mea_by_name::{ByName, Roomy};
use mea_family::{Form, Reply, Stop, Word, borrowed_if, unknown_unless, zero_if};
use mea_share_core::SharedKey;
use std::alloc::Global;
use std::marker::Model;

/// Admissions with their futures and permits, each by the number of the event that made it. Each call costs a look-up by
/// name, one by key, and what its core costs.
///
/// An admission stays without its name while an owned thing of it lives.
#[derive(Drop)]
pub struct SharePart {
    admissions: ByName<AdmissionEntry>,
    futures: ByName<FutureEntry>,
    permits: Roomy<PermitEntry>,
    next: u128,
    alloc: Global,
}

impl Model for SharePart {
    ghost use Rattle.mea_family.specs.Play.{Part, part_code};
    ghost use Rattle.mea_share_model.specs.Admissions.{ShareHall, hall_code};

    ghost Value = { Part ShareHall };

    ghost coded = { part_code hall_code };

    ghost use Rattle.mea_share.specs.Kept.{hall_seen, AreKeptAdmissions};

    ghost view = { λ a. record { hall = hall_seen a.admissions a.futures a.permits.things; next = a.next } };

    ghost invariant = { λ a. AreKeptAdmissions a.admissions a.futures a.permits.things a.next };
}

impl SharePart {
    /// No admission. It takes no memory.
    pub fn new(alloc: Global) -> Self
        ensures { result ≡ record { hall = empty_hall; next = 0 } }
    {
        SharePart {
            admissions: ByName::new(alloc),
            futures: ByName::new(alloc),
            permits: Roomy::new(alloc),
            next: 0,
            alloc,
        }
    }

    /// The core of the admission of this name, where it is still named. It takes no memory.
    pub fn fair(&self, o: u64) -> Option<&Core>
        ensures named { is_some result ≡ is_named self.now.hall o }
        ensures stands { IfSome result (λ core. StandsFor self.now.hall o core.now) }
    {
        let entry = self.named_entry(o)?;
        Some(entry.core())
    }

    /// The numbers of the hall are as they are in every hall that events reach, and no permit is free beside one that waits.
    /// It does nothing.
    pub fn is_valid(&self)
        ensures valid { AreValid self.now.hall }
        ensures settled { AreSettled self.now.hall }
    {
        let _next = self.next;
    }

    /// Why an action is refused; None where it is not. It takes no memory.
    pub fn cause(&self, action: ShareAction) -> Option<Stop>
        ensures { result ≡ cause_in self.now.hall (meant action) }
    {
        match action {
            ShareAction::Make(n) => zero_if(n == 0),
            ShareAction::Free(o) | ShareAction::Waiters(o) => unknown_unless(self.is_named(o)),
            ShareAction::Weight(o, _) => unknown_unless(self.is_named(o)),
            ShareAction::Weigh(o, _, n) => unknown_unless(self.is_named(o)).or(zero_if(n == 0)),
            ShareAction::Try(o, _, _) => unknown_unless(self.is_named(o)),
            ShareAction::Begin(o, _, _) => unknown_unless(self.is_named(o)),
            ShareAction::Poll(f, _) => unknown_unless(self.is_future(f)),
            ShareAction::Key(p) => unknown_unless(self.is_permit(p)),
            ShareAction::End(x) => unknown_unless(self.is_future(x) || self.is_permit(x)),
            ShareAction::Drop(o) => self.cause_of_drop(o),
        }
    }

    // What is kept of an admission that is named.
    fn named_entry(&self, o: u64) -> Option<&AdmissionEntry>
        ensures named { is_some result ≡ is_named self.now.hall o }
        ensures plain { IfSome result (λ entry. plain_of self.now.hall o ≡ entry.now.plain) }
        ensures stands { IfSome result (λ entry. StandsFor self.now.hall o entry.now.fair) }
        ensures waiting { IfSome result (λ entry. waiters_of entry.now.fair ≡ waiting_in (shares_seen entry.now.fair.shares)) }
    {
        let entry = self.admissions.get(o)?;
        if entry.is_named() { Some(entry) } else { None }
    }

    // Whether an admission of this name is there and still named.
    fn is_named(&self, o: u64) -> bool
        ensures { result ≡ is_named self.now.hall o }
    {
        self.named_entry(o).is_some()
    }

    // Whether a future has this name.
    fn is_future(&self, f: u64) -> bool
        ensures { result ≡ is_future self.now.hall f }
    {
        self.futures.has(f)
    }

    // Whether a permit has this name.
    fn is_permit(&self, p: u64) -> bool
        ensures { result ≡ is_permit self.now.hall p }
    {
        self.permits.has(p)
    }

    // Why the end of its name is refused: it is unknown, or a plain future or permit borrows it.
    fn cause_of_drop(&self, o: u64) -> Option<Stop>
        ensures { result ≡ borrowed_by (is_named self.now.hall o) (plain_of self.now.hall o) }
    {
        match self.named_entry(o) {
            Some(entry) => borrowed_if(entry.has_plain()),
            None => Some(Stop::Unknown),
        }
    }

    /// Does an action under a number that is greater than each before, or finds why it is refused. Each name is looked up
    /// once, but for that of a future that is ready, which is taken out. On an error nothing has changed.
    pub fn act(
        &mut self,
        number: u64,
        action: ShareAction,
        ready: &mut Ready<u64>,
    ) -> Result<Reply, Stop>
        requires next { self.old.next ≤ number }
        requires room { registered self.old.hall ≤ ready.old.registered }
        ensures { Acts self.old number (meant action) result self.new ready.old ready.new }
    {
        match action {
            ShareAction::Make(n) => self.make(number, n),
            ShareAction::Free(o) => self.free(number, o),
            ShareAction::Waiters(o) => self.waiters(number, o),
            ShareAction::Weight(o, k) => self.weight(number, o, k),
            ShareAction::Weigh(o, k, n) => self.set_weight(number, o, k, n),
            ShareAction::Try(o, k, form) => self.try_acquire(number, o, k, form),
            ShareAction::Begin(o, k, form) => self.begin(number, o, k, form),
            ShareAction::Poll(f, waker) => self.poll(number, f, waker, ready),
            ShareAction::Key(p) => self.key(number, p),
            ShareAction::End(x) => self.end(number, x, ready),
            ShareAction::Drop(o) => self.end_name(number, o),
        }
    }

    // Makes an admission with this many permits.
    fn make(&mut self, number: u64, permits: u64) -> Result<Reply, Stop>
        requires { self.old.next ≤ number }
        ensures { ActsQuietly self.old number (Make permits) result self.new }
    {
        if permits == 0 {
            return Err(Stop::Zero);
        }
        let entry = AdmissionEntry::new(self.alloc, permits as usize);
        let Ok(()) = self.admissions.insert(number, entry) else {
            return Err(Stop::NoMemory);
        };
        self.next = number as u128 + 1;
        Ok(Reply(Word::Made))
    }

    // Tells the free permits. It takes no memory.
    fn free(&mut self, number: u64, o: u64) -> Result<Reply, Stop>
        requires { self.old.next ≤ number }
        ensures { ActsQuietly self.old number (Free o) result self.new }
    {
        let Some(entry) = self.named_entry(o) else {
            return Err(Stop::Unknown);
        };
        let free = entry.core().available_permits();
        self.next = number as u128 + 1;
        Ok(Reply(Word::Free(free as u64)))
    }

    // Tells how many futures wait. It takes no memory.
    fn waiters(&mut self, number: u64, o: u64) -> Result<Reply, Stop>
        requires { self.old.next ≤ number }
        ensures { ActsQuietly self.old number (Waiters o) result self.new }
    {
        let Some(entry) = self.named_entry(o) else {
            return Err(Stop::Unknown);
        };
        let waiters = entry.core().num_waiters();
        self.next = number as u128 + 1;
        Ok(Reply(Word::Count(waiters as u64)))
    }

    // Tells the key of a permit. It takes no memory.
    fn key(&mut self, number: u64, p: u64) -> Result<Reply, Stop>
        requires { self.old.next ≤ number }
        ensures { ActsQuietly self.old number (Key p) result self.new }
    {
        let Some(permit) = self.permits.get(p) else {
            return Err(Stop::Unknown);
        };
        let key = *permit.key().key();
        self.next = number as u128 + 1;
        Ok(Reply(Word::Key(key)))
    }

    // Tells the weight of a key.
    fn weight(&mut self, number: u64, o: u64, k: u64) -> Result<Reply, Stop>
        requires { self.old.next ≤ number }
        ensures { ActsQuietly self.old number (Weight o k) result self.new }
    {
        let Some(entry) = self.named_entry(o) else {
            return Err(Stop::Unknown);
        };
        let Ok(key) = SharedKey::new(self.alloc, k) else {
            return Err(Stop::NoMemory);
        };
        let weight = entry.core().weight(&key);
        self.next = number as u128 + 1;
        Ok(Reply(Word::Count(weight)))
    }

    // Sets the weight of a key.
    fn set_weight(&mut self, number: u64, o: u64, k: u64, weight: u64) -> Result<Reply, Stop>
        requires { self.old.next ≤ number }
        ensures { ActsQuietly self.old number (Weigh o k weight) result self.new }
    {
        let Some(entry) = self.admissions.get_mut(o) else {
            return Err(Stop::Unknown);
        };
        if let Some(stop) = entry.cause_of_weight(weight) {
            return Err(stop);
        }
        let Ok(key) = SharedKey::new(self.alloc, k) else {
            return Err(Stop::NoMemory);
        };
        let Ok(()) = entry.set_weight(&key, weight) else {
            return Err(Stop::NoMemory);
        };
        self.next = number as u128 + 1;
        Ok(Reply(Word::Done))
    }

    // Makes a future of a permit for a key.
    fn begin(&mut self, number: u64, o: u64, k: u64, form: Form) -> Result<Reply, Stop>
        requires { self.old.next ≤ number }
        ensures { ActsQuietly self.old number (Begin o k (is_plain form)) result self.new }
    {
        let plain = form.is_plain();
        let Some(entry) = self.admissions.get_mut(o) else {
            return Err(Stop::Unknown);
        };
        if !entry.is_named() {
            return Err(Stop::Unknown);
        }
        let Ok(key) = SharedKey::new(self.alloc, k) else {
            return Err(Stop::NoMemory);
        };
        let Ok(()) = self.futures.insert(number, FutureEntry::new(o, key, plain)) else {
            return Err(Stop::NoMemory);
        };
        entry.begin(plain);
        self.next = number as u128 + 1;
        Ok(Reply(Word::Made))
    }

    // Takes a permit for a key, where one is free and nobody waits. Room for the permit is made before it is taken.
    fn try_acquire(&mut self, number: u64, o: u64, k: u64, form: Form) -> Result<Reply, Stop>
        requires { self.old.next ≤ number }
        ensures { ActsQuietly self.old number (Try o k (is_plain form)) result self.new }
    {
        let plain = form.is_plain();
        let Some(entry) = self.admissions.get_mut(o) else {
            return Err(Stop::Unknown);
        };
        if !entry.is_named() {
            return Err(Stop::Unknown);
        }
        if entry.core().available_permits() == 0 {
            self.next = number as u128 + 1;
            return Ok(Reply(Word::Lacking));
        }
        let Ok((key, permit)) = PermitEntry::new(self.alloc, o, k, plain) else {
            return Err(Stop::NoMemory);
        };
        let Ok(()) = self.permits.reserve(1) else {
            return Err(Stop::NoMemory);
        };
        let Ok(_) = entry.take(&key) else {
            return Err(Stop::NoMemory);
        };
        self.permits.insert(number, permit);
        entry.begin(plain);
        self.next = number as u128 + 1;
        Ok(Reply(Word::Held))
    }

    // Polls a future. Room for the permit is made first, but for one that begins to wait.
    fn poll(
        &mut self,
        number: u64,
        f: u64,
        waker: u64,
        ready: &mut Ready<u64>,
    ) -> Result<Reply, Stop>
        requires { self.old.next ≤ number }
        ensures { Acts self.old number (PollIt f waker) result self.new ready.old ready.new }
    {
        let Some(future) = self.futures.get_mut(f) else {
            return Err(Stop::Unknown);
        };
        let entry = self.admissions.at_mut(future.admission());
        if entry.would_queue(future) {
            let Ok(_) = entry.poll(future, waker, ready) else {
                return Err(Stop::NoMemory);
            };
            self.next = number as u128 + 1;
            return Ok(Reply(Word::Pending));
        }
        let Ok(permit) = future.permit() else {
            return Err(Stop::NoMemory);
        };
        let Ok(()) = self.permits.reserve(1) else {
            return Err(Stop::NoMemory);
        };
        match entry.poll(future, waker, ready) {
            Err(_) => Err(Stop::NoMemory),
            Ok(Poll::Pending) => {
                self.next = number as u128 + 1;
                Ok(Reply(Word::Pending))
            }
            Ok(Poll::Ready(())) => {
                self.permits.insert(number, permit);
                let _ = self.futures.remove(f);
                self.next = number as u128 + 1;
                Ok(Reply(Word::Ready))
            }
        }
    }

    // Ends a future, or else a permit. It takes no memory.
    fn end(&mut self, number: u64, x: u64, ready: &mut Ready<u64>) -> Result<Reply, Stop>
        requires next { self.old.next ≤ number }
        requires room { registered self.old.hall ≤ ready.old.registered }
        ensures { Acts self.old number (End x) result self.new ready.old ready.new }
    {
        let Some(future) = self.futures.take(x) else {
            return self.end_permit(number, x, ready);
        };
        let o = future.admission();
        let plain = future.is_plain();
        let entry = self.admissions.at_mut(o);
        entry.end_future(future, ready);
        entry.finish(plain);
        let over = entry.is_over();
        self.admissions.remove_if(o, over);
        self.next = number as u128 + 1;
        Ok(Reply(Word::Done))
    }

    // Ends a permit, where no future has its name. It takes no memory.
    fn end_permit(&mut self, number: u64, p: u64, ready: &mut Ready<u64>) -> Result<Reply, Stop>
        requires next { self.old.next ≤ number }
        requires apart { map.get self.old.hall.futures p ≡ None }
        requires room { registered self.old.hall ≤ ready.old.registered }
        ensures { Acts self.old number (End p) result self.new ready.old ready.new }
    {
        let Some(permit) = self.permits.take(p) else {
            return Err(Stop::Unknown);
        };
        let o = permit.admission();
        let entry = self.admissions.at_mut(o);
        entry.end_permit(permit.key(), ready);
        entry.finish(permit.is_plain());
        let over = entry.is_over();
        self.admissions.remove_if(o, over);
        self.next = number as u128 + 1;
        Ok(Reply(Word::Done))
    }

    // Ends the name of an admission. It takes no memory.
    fn end_name(&mut self, number: u64, o: u64) -> Result<Reply, Stop>
        requires { self.old.next ≤ number }
        ensures { ActsQuietly self.old number (Drop o) result self.new }
    {
        let Some(entry) = self.admissions.get_mut(o) else {
            return Err(Stop::Unknown);
        };
        if let Some(stop) = entry.cause_of_drop() {
            return Err(stop);
        }
        entry.unname();
        let over = entry.is_over();
        self.admissions.remove_if(o, over);
        self.next = number as u128 + 1;
        Ok(Reply(Word::Done))
    }
}
