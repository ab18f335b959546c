ghost use Rattle.std.specs.Prelude.{◌≡◌, ◌≢◌, ◌≤◌, ◌⊎◌, OnOk, OnErr, IfOk, IfErr, None, Some, true, false};
ghost use Rattle.mea_sem_model.specs.Cause.{cause_of};
ghost use Rattle.mea_sem_model.specs.Waiters.{waiters};
ghost use Rattle.mea_sem.specs.Play.{PlaysIn, PlaysQuietly, TakesNoMemory};
ghost use Rattle.mea_sem.specs.Actions.{event_of};

use crate::actions::Action;
use crate::entries::SemaphoreEntry;
use crate::family::SemFamily;
use mea_base::Ready;
use mea_events::SemEvent;
use mea_family::{Answer, Stop};
use mea_sem_core::SemCore;

// What the events on semaphores do. Each finds its cause for refusal at the entry that it looks up.
impl SemFamily {
    #[inline(always)]
    pub(crate) fn make(&mut self, number: u64, n: u64) -> Result<Answer, Stop>
        requires { self.old.next ≤ number }
        ensures played { IfOk result (λ reply. PlaysQuietly self.old number (SemEvent.New n) reply self.new) }
        ensures memory { IfErr result (λ stop. stop ≡ Stop.NoMemory) }
        ensures err { OnErr result (self.new ≡ self.old) }
    {
        let entry = SemaphoreEntry {
            core: SemCore::new(self.alloc, n as usize),
            made: n,
            released: 0,
            forgotten: 0,
            named: true,
            plain: 0,
            things: 0,
        };
        let Ok(()) = self.ended.reserve(self.semaphores.len() + 1) else {
            return Err(Stop::NoMemory);
        };
        self.semaphores.insert(number, entry)?;
        self.next = number as u128 + 1;
        Ok(Answer::Made)
    }

    // What an event does to the semaphore that it names, with one look-up.
    #[inline(always)]
    pub(crate) fn act_on(
        &mut self,
        number: u64,
        s: u64,
        action: Action,
        ready: &mut Ready<u64>,
    ) -> Result<Answer, Stop>
        requires next { self.old.next ≤ number }
        requires room { waiters self.old.hall ≤ ready.old.registered }
        ensures played { IfOk result (λ reply. PlaysIn self.old number (event_of action s) reply self.new ready.old ready.new) }
        ensures allowed { OnOk result (cause_of self.old.hall (event_of action s) ≡ None) }
        ensures refused { IfErr result (λ stop. (cause_of self.old.hall (event_of action s) ≡ Some stop)
            ⊎ ((cause_of self.old.hall (event_of action s) ≡ None) × (stop ≡ Stop.NoMemory))) }
        ensures no_memory { IfErr result (λ stop. TakesNoMemory (event_of action s) → stop ≢ Stop.NoMemory) }
        ensures err { OnErr result ((self.new ≡ self.old) × (ready.new ≡ ready.old)) }
    {
        let Some(entry) = self.semaphores.get_mut(&s) else {
            return Err(Stop::Unknown);
        };
        let answer = entry.act(action, ready)?;
        let over = entry.is_over();
        self.next = number as u128 + 1;
        self.tidy(s, over);
        Ok(answer)
    }

    // Keeps the account alone of a semaphore that is over, which looks that up again. It takes no memory, since room
    // was made for the account; where there were none, the semaphore would stay as it is.
    pub(crate) fn tidy(&mut self, s: u64, over: bool)
        ensures { self.new ≡ self.old }
    {
        if over {
            self.settle(s);
        }
    }

    fn settle(&mut self, s: u64)
        ensures { self.new ≡ self.old }
    {
        let Some(entry) = self.semaphores.get(&s) else {
            return;
        };
        if !entry.is_over() || self.ended.len() == self.ended.capacity() {
            return;
        }
        self.ended.push_reserved(entry.account(s));
        let _entry = self.semaphores.remove(&s);
    }
}
