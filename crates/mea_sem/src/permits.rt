ghost use Rattle.std.specs.Prelude.{◌≡◌, ◌≢◌, ◌≤◌, ◌⊎◌, OnOk, OnErr, IfOk, IfErr, None, Some, true, false};
ghost use Rattle.std.specs.FinMap as map;
ghost use Rattle.mea_sem_model.specs.Cause.{cause_of};
ghost use Rattle.mea_sem_model.specs.Step.{try_of};
ghost use Rattle.mea_family.specs.Forms.{is_plain};
ghost use Rattle.mea_family.specs.Play.{PartRests};
ghost use Rattle.mea_sem_model.specs.Waiters.{waiters};
ghost use Rattle.mea_sem.specs.Play.{PlaysIn, PlaysQuietly};

use crate::causes::are_alike;
use crate::entries::PermitEntry;
use crate::family::SemFamily;
use mea_base::Ready;
use mea_events::SemEvent;
use mea_family::{Answer, Form, Stop};

// What the events that make, change and end permits do. Each finds its cause for refusal at what it looks up.
impl SemFamily {
    // `try` and `tryo`.
    #[inline(always)]
    pub(crate) fn try_permit(
        &mut self,
        number: u64,
        s: u64,
        n: u64,
        form: Form,
    ) -> Result<Answer, Stop>
        requires { self.old.next ≤ number }
        ensures played { IfOk result (λ reply. PartRests waiters self.old number (try_of self.old.hall number s n (is_plain form)) reply self.new) }
        ensures allowed { OnOk result (cause_of self.old.hall (SemEvent.Try s n) ≡ None) }
        ensures refused { IfErr result (λ stop. (cause_of self.old.hall (SemEvent.Try s n) ≡ Some stop)
            ⊎ ((cause_of self.old.hall (SemEvent.Try s n) ≡ None) × (stop ≡ Stop.NoMemory))) }
        ensures err { OnErr result (self.new ≡ self.old) }
    {
        let plain = form.is_plain();
        let Some(entry) = self.semaphores.get_mut(&s) else {
            return Err(Stop::Unknown);
        };
        entry.known()?;
        if !entry.offers(n as usize) {
            self.next = number as u128 + 1;
            return Ok(Answer::Lacking);
        }
        let permit = PermitEntry {
            semaphore: s,
            size: n as usize,
            plain,
        };
        self.permits.insert(number, permit)?;
        entry.take(n as usize, plain);
        self.next = number as u128 + 1;
        Ok(Answer::Held)
    }

    pub(crate) fn lose(&mut self, number: u64, p: u64) -> Result<Answer, Stop>
        requires { self.old.next ≤ number }
        ensures played { IfOk result (λ reply. PlaysQuietly self.old number (SemEvent.Lose p) reply self.new) }
        ensures allowed { OnOk result (cause_of self.old.hall (SemEvent.Lose p) ≡ None) }
        ensures refused { IfErr result (λ stop. (cause_of self.old.hall (SemEvent.Lose p) ≡ Some stop) × (stop ≢ Stop.NoMemory)) }
        ensures err { OnErr result (self.new ≡ self.old) }
    {
        let Some(permit) = self.permits.take(p) else {
            return Err(Stop::Unknown);
        };
        let Some(entry) = self.semaphores.get_mut(&permit.semaphore) else {
            unreachable!()
        };
        entry.lose(permit.size, permit.plain);
        let over = entry.is_over();
        self.next = number as u128 + 1;
        self.tidy(permit.semaphore, over);
        Ok(Answer::Forgot(permit.size as u64))
    }

    pub(crate) fn merge(&mut self, number: u64, p: u64, q: u64) -> Result<Answer, Stop>
        requires { self.old.next ≤ number }
        ensures played { IfOk result (λ reply. PlaysQuietly self.old number (SemEvent.Merge p q) reply self.new) }
        ensures allowed { OnOk result (cause_of self.old.hall (SemEvent.Merge p q) ≡ None) }
        ensures refused { IfErr result (λ stop. (cause_of self.old.hall (SemEvent.Merge p q) ≡ Some stop) × (stop ≢ Stop.NoMemory)) }
        ensures err { OnErr result (self.new ≡ self.old) }
    {
        if p == q {
            return Err(Stop::Unknown);
        }
        let Some(other) = self.permits.get(q).copied() else {
            return Err(Stop::Unknown);
        };
        let Some(permit) = self.permits.get_mut(p) else {
            return Err(Stop::Unknown);
        };
        if !are_alike(permit, &other) {
            return Err(Stop::Unknown);
        }
        permit.size += other.size;
        let _other = self.permits.take(q);
        let Some(entry) = self.semaphores.get_mut(&other.semaphore) else {
            unreachable!()
        };
        entry.discount(other.plain);
        self.next = number as u128 + 1;
        Ok(Answer::Done)
    }

    pub(crate) fn split(&mut self, number: u64, p: u64, n: u64) -> Result<Answer, Stop>
        requires { self.old.next ≤ number }
        ensures played { IfOk result (λ reply. PlaysQuietly self.old number (SemEvent.Split p n) reply self.new) }
        ensures allowed { OnOk result (cause_of self.old.hall (SemEvent.Split p n) ≡ None) }
        ensures refused { IfErr result (λ stop. (cause_of self.old.hall (SemEvent.Split p n) ≡ Some stop)
            ⊎ ((cause_of self.old.hall (SemEvent.Split p n) ≡ None) × (stop ≡ Stop.NoMemory))) }
        ensures err { OnErr result (self.new ≡ self.old) }
    {
        let Some(permit) = self.permits.get_mut(p) else {
            return Err(Stop::Unknown);
        };
        if n as usize > permit.size {
            self.next = number as u128 + 1;
            return Ok(Answer::Lacking);
        }
        permit.size -= n as usize;
        let part = PermitEntry {
            size: n as usize,
            ..*permit
        };
        let Ok(_) = self.permits.insert(number, part) else {
            let Some(permit) = self.permits.get_mut(p) else {
                unreachable!()
            };
            permit.size += n as usize;
            return Err(Stop::NoMemory);
        };
        let Some(entry) = self.semaphores.get_mut(&part.semaphore) else {
            unreachable!()
        };
        entry.count(part.plain);
        self.next = number as u128 + 1;
        Ok(Answer::Held)
    }

    pub(crate) fn size(&mut self, number: u64, p: u64) -> Result<Answer, Stop>
        requires { self.old.next ≤ number }
        ensures played { IfOk result (λ reply. PlaysQuietly self.old number (SemEvent.Size p) reply self.new) }
        ensures allowed { OnOk result (cause_of self.old.hall (SemEvent.Size p) ≡ None) }
        ensures refused { IfErr result (λ stop. (cause_of self.old.hall (SemEvent.Size p) ≡ Some stop) × (stop ≢ Stop.NoMemory)) }
        ensures err { OnErr result (self.new ≡ self.old) }
    {
        let Some(permit) = self.permits.get(p) else {
            return Err(Stop::Unknown);
        };
        let size = permit.size;
        self.next = number as u128 + 1;
        Ok(Answer::Permits(size as u64))
    }

    // `end` of a permit.
    pub(crate) fn end_permit(
        &mut self,
        number: u64,
        p: u64,
        ready: &mut Ready<u64>,
    ) -> Result<Answer, Stop>
        requires next { self.old.next ≤ number }
        requires room { waiters self.old.hall ≤ ready.old.registered }
        requires no_future { map.get self.old.hall.futures p ≡ None }
        ensures played { IfOk result (λ reply. PlaysIn self.old number (SemEvent.End p) reply self.new ready.old ready.new) }
        ensures allowed { OnOk result (cause_of self.old.hall (SemEvent.End p) ≡ None) }
        ensures refused { IfErr result (λ stop. (cause_of self.old.hall (SemEvent.End p) ≡ Some stop) × (stop ≢ Stop.NoMemory)) }
        ensures err { OnErr result ((self.new ≡ self.old) × (ready.new ≡ ready.old)) }
    {
        let Some(permit) = self.permits.take(p) else {
            return Err(Stop::Unknown);
        };
        let Some(entry) = self.semaphores.get_mut(&permit.semaphore) else {
            unreachable!()
        };
        entry.give_back(permit.size, permit.plain, ready);
        let over = entry.is_over();
        self.next = number as u128 + 1;
        self.tidy(permit.semaphore, over);
        Ok(Answer::Done)
    }
}
