ghost use Rattle.std.specs.Prelude.{◌≡◌, ◌+◌, ◌-◌, ◌*◌, ◌<◌, ◌≤◌, ℕ, [], ◌∷◌, drop, length, ◌↔◌, IsTrue};
ghost use Rattle.mea_base.specs.Queue.{lacks};
ghost use Rattle.mea_sem_core.specs.Core.{Waiter, paid_to_debts, HasNoDebt};
ghost use Rattle.mea_sem_core.specs.Places.{queue_of, IsQueue, PaysPart, GrantsFirst, Pours};
ghost use Rattle.mea_base.specs.WaitList.{IsInUse};

use crate::wait_record::WaitRecord;
use mea_base::{Outbox, Steps, WaitList};
use std::sync::ledger::{Blank, Ledger};

/// What of a pour no waiter took, and what of it went to debts.
pub(crate) struct Poured {
    pub(crate) left: usize,
    pub(crate) to_debts: usize,
}

// What a waiter lacks, and what of it a debt lacks.
pub(crate) struct Lacking {
    lack: usize,
    debt: usize,
}

// Pays a waiter the amount where that is less than it lacks, and tells what it lacked. One step.
fn pay_part<W, L: Ledger>(
    waiters: &mut WaitList<WaitRecord<W>>,
    number: usize,
    amount: usize,
    steps: &mut Steps<L>,
) -> Lacking
    requires { IsInUse waiters.old number }
    ensures pays { PaysPart waiters.old waiters.new number amount result.lack result.debt }
    ensures ticks { steps.new ≡ steps.old + 1 }
{
    let place = waiters.get_mut_counted(number, steps);
    let (lack, debt) = (place.lack(), place.debt());
    if amount < lack {
        place.pay(amount);
        return Lacking { lack, debt };
    }
    Lacking { lack, debt }
}

// Takes the first waiter, which is paid whole, out of the queue. Four steps.
fn grant_first<W: Drop, L: Ledger>(
    waiters: &mut WaitList<WaitRecord<W>>,
    outbox: &mut Outbox<W>,
    number: usize,
    steps: &mut Steps<L>,
)
    requires kept { IsQueue waiters.old }
    requires first { waiters.old.order ≡ number ∷ drop 1 waiters.old.order }
    requires room { length waiters.old.order ≤ outbox.old.spare }
    ensures grants { (first : Waiter W × ℕ) × GrantsFirst waiters.old waiters.new outbox.old outbox.new first }
    ensures ticks { steps.new ≡ steps.old + 4 }
{
    waiters.unlink_counted(number, steps);
    match waiters.get_mut_counted(number, steps).grant() {
        Some(waker) => outbox.push(waker),
        None => {
            let _ = waiters.remove_unlinked(number);
        }
    }
}

/// Pours the amount: pays the lacks from the head of the queue, and touches the waiters that it pays
/// alone. It takes no memory, and six steps for each waiter that it pays whole and two more at the most.
pub(crate) fn pour_counted<W: Drop, L: Ledger>(
    waiters: &mut WaitList<WaitRecord<W>>,
    outbox: &mut Outbox<W>,
    amount: usize,
    steps: &mut Steps<L>,
) -> Poured
    requires kept { IsQueue waiters.old }
    requires room { length waiters.old.order ≤ outbox.old.spare }
    ensures pours { Pours waiters.old waiters.new outbox.old outbox.new amount }
    ensures left { result.left ≡ amount - lacks (queue_of waiters.old) }
    ensures to_debts { result.to_debts ≡ paid_to_debts (queue_of waiters.old) amount }
    ensures within { result.left + result.to_debts ≤ amount }
    ensures idle { 0 < result.left → waiters.new.order ≡ [] }
    ensures few { steps.new + 6 * length waiters.new.order ≤ steps.old + 6 * length waiters.old.order + 2 }
{
    let mut rest = amount;
    let mut to_debts = 0;
    while let Some(number) = waiters.first_counted(steps) {
        let Lacking { lack, debt } = pay_part(waiters, number, rest, steps);
        to_debts += debt.min(rest);
        if rest < lack {
            return Poured { left: 0, to_debts };
        }
        rest -= lack;
        grant_first(waiters, outbox, number, steps);
    }
    Poured {
        left: rest,
        to_debts,
    }
}

/// `pour_counted`, which opens a ledger for its steps and drops it.
pub(crate) fn pour<W: Drop, L: Ledger>(
    waiters: &mut WaitList<WaitRecord<W>>,
    outbox: &mut Outbox<W>,
    amount: usize,
    blank: Blank,
) -> Poured
    requires kept { IsQueue waiters.old }
    requires room { length waiters.old.order ≤ outbox.old.spare }
    requires name { blank.name ≡ L.name }
    requires parts { blank.parts ≡ L.parts }
    requires some { 0 < L.parts }
    ensures pours { Pours waiters.old waiters.new outbox.old outbox.new amount }
    ensures left { result.left ≡ amount - lacks (queue_of waiters.old) }
    ensures to_debts { result.to_debts ≡ paid_to_debts (queue_of waiters.old) amount }
    ensures within { result.left + result.to_debts ≤ amount }
    ensures idle { 0 < result.left → waiters.new.order ≡ [] }
{
    let mut steps = Steps::<L>::new(blank);
    pour_counted(waiters, outbox, amount, &mut steps)
}

/// Whether nobody who waits owes, and all together lack at most so much. It takes no memory, and a step for
/// each waiter.
pub(crate) fn lack_at_most<W>(waiters: &WaitList<WaitRecord<W>>, most: usize) -> bool
    requires { IsQueue waiters.now }
    ensures { IsTrue result ↔ (HasNoDebt (queue_of waiters.now) × (lacks (queue_of waiters.now) ≤ most)) }
{
    let mut rest = most;
    let mut next = waiters.first();
    while let Some(number) = next {
        let record = waiters.get(number);
        if record.is_debt() || rest < record.lack() {
            return false;
        }
        rest -= record.lack();
        next = waiters.next(number);
    }
    true
}
