ghost use Rattle.std.specs.Prelude.{◌≡◌, ◌≢◌, ◌+◌, ◌<◌, ◌≤◌, ◌^◌, ◌++◌, ◌∷◌, ◌⊎◌, [], ℕ, None, Some, true, All, Any, IfOk, OnErr, OnOk, IfErr, length, vec_len, vec_capacity, sum_by};
ghost use Rattle.mea_family.specs.declared.stop.Stop.TheVariants as stops;
ghost use Rattle.mea_sem_model.specs.Cause.{cause_of};
ghost use Rattle.mea_sem_model.specs.Step.{step};
ghost use Rattle.mea_recorded.specs.History.{IsHistory, hall_after, with_event};
ghost use Rattle.mea_recorded.specs.Things.{ends};
ghost use Rattle.mea_recorded.specs.Closing.{Stands, rise_from, Explains};

use crate::closing::compare_all;
use crate::mismatch::Mismatch;
use crate::pass::{Noted, Pass};
use crate::receipt::{Receipt, Refused};
use crate::recorded::Recorded;
use mea_events::SemEvent;
use mea_family::Stop;
use std::sync::ledger::{Book, Ledger, Share};

/// What lies under the lock: the history, and the count of the receipts that were given.
#[derive(Drop)]
pub struct Desk<L: Ledger> {
    pub(crate) recorded: Recorded,
    pub(crate) book: Book<L>,
    // A share of nothing, to which the shares of all passes are added at the end.
    pub(crate) none: Share<L>,
    pub ghost nothing: { (none.parts ≡ 0) × (none.amount ≡ 0) },
    pub ghost counted: { length recorded.events ≡ book.total + 1 },
}

impl<L: Ledger> Desk<L> {
    /// Plays an event by a pass, which keeps the receipt. A cause for refusal comes before want of memory; a
    /// refusal leaves the history and the receipts.
    pub fn act(&mut self, pass: &mut Pass<L>, event: &SemEvent) -> Result<Receipt, Refused>
        ensures entry { IfOk result (λ r. (r.number ≡ length self.old.recorded.events) × (self.new.recorded ≡ with_event self.old.recorded event.now)) }
        ensures answer { IfOk result (λ r. r.answer ≡ (step (hall_after self.old.recorded.events) (length self.old.recorded.events) event.now).reply) }
        ensures noted { IfOk result (λ r. pass.new.noted.items ≡ pass.old.noted.items ++ record { asked = event.now; receipt = r } ∷ []) }
        ensures allowed { OnOk result (cause_of (hall_after self.old.recorded.events) event.now ≡ None) }
        ensures refused { IfErr result (λ r. (r.at ≡ length self.old.recorded.events)
            × ((cause_of (hall_after self.old.recorded.events) event.now ≡ Some r.stop) ⊎ ((cause_of (hall_after self.old.recorded.events) event.now ≡ None) × (r.stop ≡ stops.NoMemory)))) }
        ensures no_memory { ends event.now ≡ true → vec_len pass.old.noted < vec_capacity pass.old.noted → IfErr result (λ r. cause_of (hall_after self.old.recorded.events) event.now ≡ Some r.stop) }
        ensures err { OnErr result ((self.new.recorded ≡ self.old.recorded) × (pass.new.noted.items ≡ pass.old.noted.items)) }
        ensures parts { pass.new.parts ≡ pass.old.parts }
        ensures history { IsHistory self.old.recorded }
    {
        let Desk {
            recorded,
            book,
            none: _,
        } = self;
        let Pass {
            share,
            parts: _,
            noted,
            alloc: _,
        } = pass;
        let at = recorded.entries();
        if noted.reserve(1).is_err() {
            let stop = recorded.cause(event).unwrap_or(Stop::NoMemory);
            return Err(Refused { stop, at });
        }
        match recorded.act_on(event) {
            Ok(receipt) => {
                noted.push_reserved(Noted {
                    asked: *event,
                    receipt,
                });
                book.add(share, 1);
                Ok(receipt)
            }
            Err(refused) => Err(refused),
        }
    }

    /// Ends the ledger with all passes, whose receipts are held against the entries.
    pub fn close(self, passes: Vec<Pass<L>>) -> Result<Recorded, (Recorded, Mismatch)>
        requires { sum_by (λ p. p.parts) passes.items ≡ L.parts }
        ensures count { IfOk result (λ r. length r.events ≡ sum_by (λ p. vec_len p.noted) passes.items + 1) }
        ensures same { IfOk result (λ r. r ≡ self.recorded) }
        ensures stand { IfOk result (λ r. All (λ p. All (λ n. Stands r n) p.noted.items) passes.items) }
        ensures rise { IfOk result (λ r. All (λ p. rise_from 0 p.noted.items ≡ true) passes.items) }
        ensures err { IfErr result (λ e. (e.0 ≡ self.recorded) × Any (λ p. Explains e.0 e.1 p.noted.items) passes.items) }
    {
        let Desk {
            recorded,
            mut book,
            none,
        } = self;
        match compare_all(&recorded, passes.as_slice()) {
            Ok(()) => {}
            Err(mismatch) => return Err((recorded, mismatch)),
        }
        let mut all = none;
        for pass in passes {
            let Pass {
                share,
                parts: _,
                noted: _,
                alloc: _,
            } = pass;
            all.merge(share);
        }
        book.audit(&mut all);
        Ok(recorded)
    }
}
