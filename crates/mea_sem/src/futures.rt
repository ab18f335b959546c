ghost use Rattle.std.specs.Prelude.{◌≡◌, ◌≢◌, ◌+◌, ◌≤◌, ◌⊎◌, OnOk, OnErr, IfOk, IfErr, None, Some, IfSome, ℕ, true, false};
ghost use Rattle.std.specs.FinMap as map;
ghost use Rattle.mea_sem_model.specs.Cause.{cause_of};
ghost use Rattle.mea_sem_model.specs.Hall.{New, Waiting};
ghost use Rattle.mea_sem_model.specs.Step.{step, acquire_of};
ghost use Rattle.mea_family.specs.Forms.{is_plain};
ghost use Rattle.mea_family.specs.Play.{PartRests};
ghost use Rattle.mea_sem.specs.Grants.{is_forgotten};
ghost use Rattle.mea_sem_model.specs.Waiters.{waiters};
ghost use Rattle.mea_sem.specs.Play.{PlaysIn, PlaysQuietly};

use crate::entries::{FutureEntry, PermitEntry};
use crate::family::SemFamily;
use crate::grant::Grant;
use mea_base::Ready;
use mea_events::SemEvent;
use mea_family::{Answer, Form, Stop};
use mea_sem_core::Acquire;

// What the events on futures do. Each finds its cause for refusal at what it looks up.
impl SemFamily {
    // `acq` and its three other forms.
    #[inline(always)]
    pub(crate) fn acquire(
        &mut self,
        number: u64,
        s: u64,
        n: u64,
        form: Form,
        grant: Grant,
    ) -> Result<Answer, Stop>
        requires { self.old.next ≤ number }
        ensures played { IfOk result (λ reply. PartRests waiters self.old number (acquire_of self.old.hall number s n (is_plain form) (is_forgotten grant)) reply self.new) }
        ensures allowed { OnOk result (cause_of self.old.hall (SemEvent.Acq s n) ≡ None) }
        ensures refused { IfErr result (λ stop. (cause_of self.old.hall (SemEvent.Acq s n) ≡ Some stop)
            ⊎ ((cause_of self.old.hall (SemEvent.Acq s n) ≡ None) × (stop ≡ Stop.NoMemory))) }
        ensures err { OnErr result (self.new ≡ self.old) }
    {
        let plain = form.is_plain();
        let forgets = grant.is_forgotten();
        let Some(entry) = self.semaphores.get_mut(&s) else {
            return Err(Stop::Unknown);
        };
        entry.known()?;
        let future = FutureEntry {
            semaphore: s,
            acquire: Acquire::new(n as usize),
            plain,
            forgets,
        };
        self.futures.insert(number, future)?;
        entry.count(plain);
        self.next = number as u128 + 1;
        Ok(Answer::Made)
    }

    // `poll`: ready, refused since the semaphore was closed, waiting from now on, or waiting on. Room for the permit that it may
    // become is made before the core is asked.
    pub(crate) fn poll(
        &mut self,
        number: u64,
        f: u64,
        waker: u64,
        ready: &mut Ready<u64>,
    ) -> Result<Answer, Stop>
        requires next { self.old.next ≤ number }
        requires room { waiters self.old.hall ≤ ready.old.registered }
        ensures played { IfOk result (λ reply. PlaysIn self.old number (SemEvent.Poll f waker) reply self.new ready.old ready.new) }
        ensures allowed { OnOk result (cause_of self.old.hall (SemEvent.Poll f waker) ≡ None) }
        ensures refused { IfErr result (λ stop. (cause_of self.old.hall (SemEvent.Poll f waker) ≡ Some stop)
            ⊎ ((cause_of self.old.hall (SemEvent.Poll f waker) ≡ None) × (stop ≡ Stop.NoMemory))) }
        ensures err { OnErr result ((self.new ≡ self.old) × (ready.new ≡ ready.old)) }
    {
        let Some(future) = self.futures.get_mut(f) else {
            return Err(Stop::Unknown);
        };
        let Some(entry) = self.semaphores.get_mut(&future.semaphore) else {
            unreachable!()
        };
        let semaphore = future.semaphore;
        if entry.is_ready(&future.acquire) {
            if future.forgets {
                entry.finish_forgetting(&mut future.acquire, waker, future.plain);
                let over = entry.is_over();
                let _future = self.futures.take(f);
                self.next = number as u128 + 1;
                self.tidy(semaphore, over);
                return Ok(Answer::Ready);
            }
            self.permits.insert(number, future.permit())?;
            entry.finish(&mut future.acquire, waker);
            let _future = self.futures.take(f);
            self.next = number as u128 + 1;
            return Ok(Answer::Ready);
        }
        if entry.core.is_closed() {
            entry.refuse(&mut future.acquire, waker, future.plain);
            let over = entry.is_over();
            let _future = self.futures.take(f);
            self.next = number as u128 + 1;
            self.tidy(semaphore, over);
            return Ok(Answer::Gone);
        }
        if future.is_new() {
            entry.queue(&mut future.acquire, waker, ready)?;
            self.next = number as u128 + 1;
            return Ok(Answer::Pending);
        }
        entry.wait_on(&mut future.acquire, waker);
        self.next = number as u128 + 1;
        Ok(Answer::Pending)
    }

    // `end` of a future, or else of a permit.
    pub(crate) fn end(
        &mut self,
        number: u64,
        f: u64,
        ready: &mut Ready<u64>,
    ) -> Result<Answer, Stop>
        requires next { self.old.next ≤ number }
        requires room { waiters self.old.hall ≤ ready.old.registered }
        ensures played { IfOk result (λ reply. PlaysIn self.old number (SemEvent.End f) reply self.new ready.old ready.new) }
        ensures allowed { OnOk result (cause_of self.old.hall (SemEvent.End f) ≡ None) }
        ensures refused { IfErr result (λ stop. (cause_of self.old.hall (SemEvent.End f) ≡ Some stop) × (stop ≢ Stop.NoMemory)) }
        ensures err { OnErr result ((self.new ≡ self.old) × (ready.new ≡ ready.old)) }
    {
        let Some(future) = self.futures.take(f) else {
            return self.end_permit(number, f, ready);
        };
        let Some(entry) = self.semaphores.get_mut(&future.semaphore) else {
            unreachable!()
        };
        entry.end(future.acquire, future.plain, ready);
        let over = entry.is_over();
        self.next = number as u128 + 1;
        self.tidy(future.semaphore, over);
        Ok(Answer::Done)
    }
}
