ghost use Rattle.std.specs.Prelude.{◌≡◌, ◌≢◌, ◌+◌, ◌<◌, ◌≤◌, ◌^◌, [], true, false, Some, All, Any, OnOk, IfErr, length, slice_get};
ghost use Rattle.mea_recorded.specs.Closing.{Stands, rise_from, Differs, IsOutOfOrder, Explains, BeginsOtherwise};

use crate::mismatch::Mismatch;
use crate::pass::{Noted, Pass};
use crate::recorded::Recorded;
use mea_events::SemEvent;
use mea_family::Answer;
use std::sync::ledger::Ledger;

/// Holds all receipts of all passes against the entries that they name.
pub fn compare_all<L: Ledger>(recorded: &Recorded, passes: &[Pass<L>]) -> Result<(), Mismatch>
    ensures stand { OnOk result (All (λ p. All (λ n. Stands recorded.now n) p.noted.items) passes.now) }
    ensures rise { OnOk result (All (λ p. rise_from 0 p.noted.items ≡ true) passes.now) }
    ensures explained { IfErr result (λ m. Any (λ p. Explains recorded.now m p.noted.items) passes.now) }
{
    for pass in passes {
        match compare(recorded, pass.noted()) {
            Ok(()) => {}
            Err(mismatch) => return Err(mismatch),
        }
    }
    Ok(())
}

/// Holds all receipts of a pass against the entries that they name.
fn compare(recorded: &Recorded, noted: &[Noted]) -> Result<(), Mismatch>
    ensures stand { OnOk result (All (λ n. Stands recorded.now n) noted.now) }
    ensures rise { OnOk result (rise_from 0 noted.now ≡ true) }
    ensures explained { IfErr result (λ m. Explains recorded.now m noted.now) }
{
    for n in noted.iter().copied() {
        compare_one(recorded, &n)?;
    }
    rising(noted)
}

/// Holds one receipt against its entry.
fn compare_one(recorded: &Recorded, noted: &Noted) -> Result<(), Mismatch>
    ensures stands { OnOk result (Stands recorded.now noted.now) }
    ensures explained { IfErr result (λ m. Differs recorded.now m noted.now) }
{
    let number = noted.receipt.number;
    let entries = recorded.entries();
    if number >= entries {
        return Err(Mismatch::Beyond { number, entries });
    }
    let (played, kept) = recorded.entry_at(number);
    if is_event(&played, &noted.asked) && is_answer(&kept, &noted.receipt.answer) {
        return Ok(());
    }
    Err(Mismatch::Entry {
        number,
        asked: noted.asked,
        played,
        told: noted.receipt.answer,
        kept,
    })
}

/// Holds the first entry against the event that was asked for it.
pub fn compare_first(recorded: &Recorded, asked: &SemEvent) -> Result<(), Mismatch>
    requires { 0 < length recorded.now.events }
    ensures begins { OnOk result (slice_get recorded.now.events 0 ≡ Some asked.now) }
    ensures explained { IfErr result (λ m. BeginsOtherwise recorded.now asked.now m) }
{
    let (played, kept) = recorded.entry_at(0);
    if is_event(&played, asked) {
        return Ok(());
    }
    Err(Mismatch::Entry {
        number: 0,
        asked: *asked,
        played,
        told: kept,
        kept,
    })
}

fn is_event(one: &SemEvent, other: &SemEvent) -> bool
    ensures same { result ≡ true → one.now ≡ other.now }
    ensures apart { result ≡ false → one.now ≢ other.now }
{
    one == other
}

fn is_answer(one: &Answer, other: &Answer) -> bool
    ensures same { result ≡ true → one.now ≡ other.now }
    ensures apart { result ≡ false → one.now ≢ other.now }
{
    one == other
}

/// Whether the numbers of the receipts rise.
#[tactic(auto, using(crate::proofs::Rising::next_after_more, crate::proofs::Rising::rise_from_more))]
fn rising(noted: &[Noted]) -> Result<(), Mismatch>
    ensures rise { OnOk result (rise_from 0 noted.now ≡ true) }
    ensures explained { IfErr result (λ m. IsOutOfOrder noted.now m) }
{
    let mut last: Option<u64> = None;
    for n in noted.iter().copied() {
        let number = n.receipt.number;
        if let Some(before) = last {
            if number <= before {
                return Err(Mismatch::Order {
                    before,
                    after: number,
                });
            }
        }
        last = Some(number);
    }
    Ok(())
}
