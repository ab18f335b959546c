ghost use Rattle.std.specs.Prelude.{◌≡◌, ◌≢◌, ◌+◌, ◌<◌, ◌≤◌, ◌++◌, ◌∷◌, [], ℕ, true, Some, All, Any, ◌⊎◌, IfOk, OnErr, OnOk, IfErr, length, vec_len, vec_capacity, slice_get, sum_by};
ghost use Rattle.mea_family.specs.declared.stop.Stop.TheVariants as stops;
ghost use Rattle.mea_events.specs.declared.sem_event.SemEvent.TheVariants as lines;
ghost use Rattle.mea_recorded.specs.Closing.{Stands, rise_from, Explains, BeginsOtherwise};
ghost use Rattle.mea_recorded.specs.History.{IsHistory, IsAnsweredAfter, IsRefusedAfter};
ghost use Rattle.mea_recorded.specs.Things.{ends};

use crate::closing::compare_first;
use crate::desk::Desk;
use crate::mismatch::Mismatch;
use crate::pass::Pass;
use crate::receipt::{Receipt, Refused};
use crate::recorded::Recorded;
use mea_base::NoMemory;
use mea_events::SemEvent;
use std::alloc::Global;
use std::sync::ledger::{Blank, Ledger};
use std::sync::{Mutex, Wait};

/// A recorded semaphore that threads share. Its type names a ledger, so that the receipts of all passes together
/// are counted: at the end they are as many as the entries less the first.
pub struct RecordedSemaphore<L: Ledger> {
    desk: Mutex<Desk<L>>,
    // What it was made with. The lock tells nothing of the desk, so the first entry is held against it at the end.
    pub(crate) permits: usize,
}

// Written out: a derived one is proved anew in each crate that hands a value of this type to a generic function.
impl<L: Ledger> Drop for RecordedSemaphore<L> {
    fn drop(self) {
        let RecordedSemaphore {
            desk: _,
            permits: _,
        } = self;
    }
}

impl<L: Ledger> RecordedSemaphore<L> {
    /// A recorded semaphore with these permits, and a pass with all `parts` parts of its ledger.
    pub fn new(
        alloc: Global,
        blank: Blank,
        parts: u64,
        permits: usize,
    ) -> Result<(RecordedSemaphore<L>, Pass<L>), NoMemory>
        requires name { blank.name ≡ L.name }
        requires parts { (blank.parts ≡ L.parts) × (L.parts ≡ parts) × (0 < parts) }
        ensures permits { IfOk result (λ r. r.0.permits ≡ permits) }
        ensures pass { IfOk result (λ r. (r.1.parts ≡ L.parts) × (r.1.noted.items ≡ [])) }
    {
        let recorded = Recorded::new(alloc, permits)?;
        let (book, mut share) = blank.open::<L>();
        let none = share.empty();
        let desk = Desk {
            recorded,
            book,
            none,
        };
        let pass = Pass {
            share,
            parts,
            noted: Vec::new(alloc),
            alloc,
        };
        let shared = RecordedSemaphore {
            desk: Mutex::new(desk),
            permits,
        };
        Ok((shared, pass))
    }

    /// Plays an event by a pass, which keeps the receipt. In which state it was played nobody outside the lock can
    /// name: some history of as many entries as are told answers so, or refuses so. An end is not refused for want of
    /// memory where the pass has room. The exact clauses stand on the call under the lock.
    pub fn act<R: Wait>(
        &self,
        rt: &R,
        pass: &mut Pass<L>,
        event: &SemEvent,
    ) -> Result<Receipt, Refused>
        ensures noted { IfOk result (λ r. pass.new.noted.items ≡ pass.old.noted.items ++ record { asked = event.now; receipt = r } ∷ []) }
        ensures answered { IfOk result (λ r. IsAnsweredAfter r.number event.now r.answer) }
        ensures refused { IfErr result (λ r. IsRefusedAfter r.at event.now r.stop ⊎ (r.stop ≡ stops.NoMemory)) }
        ensures no_memory { ends event.now ≡ true → vec_len pass.old.noted < vec_capacity pass.old.noted → IfErr result (λ r. IsRefusedAfter r.at event.now r.stop) }
        ensures err { OnErr result (pass.new.noted.items ≡ pass.old.noted.items) }
        ensures parts { pass.new.parts ≡ pass.old.parts }
    {
        self.desk.lock(rt).act(pass, event)
    }

    /// Cuts one part of a pass off as a pass of its own with no receipts. It takes no memory.
    pub fn split(&self, pass: &mut Pass<L>) -> Pass<L>
        requires { 2 ≤ pass.old.parts }
        ensures given { (result.parts ≡ 1) × (result.noted.items ≡ []) }
        ensures left { (pass.new.parts + 1 ≡ pass.old.parts) × (pass.new.noted.items ≡ pass.old.noted.items) }
    {
        pass.split()
    }

    /// Takes the history out, once all passes are together. It is refused where a receipt does not agree with its
    /// entry, or the first entry with the permits that the semaphore was made with, which no order of calls brings
    /// about; the history comes back then too.
    pub fn close(self, passes: Vec<Pass<L>>) -> Result<Recorded, (Recorded, Mismatch)>
        requires { sum_by (λ p. p.parts) passes.items ≡ L.parts }
        ensures history { IfOk result (λ r. IsHistory r) }
        ensures begins { IfOk result (λ r. slice_get r.events 0 ≡ Some (lines.New self.permits)) }
        ensures count { IfOk result (λ r. length r.events ≡ sum_by (λ p. vec_len p.noted) passes.items + 1) }
        ensures stand { IfOk result (λ r. All (λ p. All (λ n. Stands r n) p.noted.items) passes.items) }
        ensures rise { IfOk result (λ r. All (λ p. rise_from 0 p.noted.items ≡ true) passes.items) }
        ensures explained { IfErr result (λ e. Any (λ p. Explains e.0 e.1 p.noted.items) passes.items ⊎ BeginsOtherwise e.0 (lines.New self.permits) e.1) }
    {
        let RecordedSemaphore { desk, permits } = self;
        let recorded = desk.into_inner().close(passes)?;
        match compare_first(&recorded, &SemEvent::New(permits as u64)) {
            Ok(()) => Ok(recorded),
            Err(mismatch) => Err((recorded, mismatch)),
        }
    }
}
