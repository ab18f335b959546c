ghost use Rattle.std.specs.Prelude.{◌≡◌, ◌+◌, ◌<◌, ◌≤◌, ◌++◌, ◌∷◌, ℕ, [], None, OnOk, IfErr, IfSome, length, slice_index_or, vec_len};
ghost use Rattle.mea_crew_run.specs.Rounds.{GoOn, GoOnOnce, StopsWorker};

use crate::answers::is_held;
use crate::gate::Gate;
use mea_events::SemEvent;
use mea_recorded::{Pass, RecordedSemaphore, Refused};
use std::sync::Wait;
use std::sync::ledger::Ledger;
use std::thread;
use std::thread::Threads;

/// A pass at work, and why the work stopped, if it did.
#[derive(Drop)]
pub struct Worker<L: Ledger> {
    pub(crate) pass: Pass<L>,
    pub(crate) fault: Option<Refused>,
}

/// Each worker does its rounds on a thread of its own.
pub fn work_all<L: Ledger + Send + Sync, R: Threads + Wait + Sync, G: Gate>(
    rt: &R,
    semaphore: &RecordedSemaphore<L>,
    gate: &G,
    rounds: u32,
    workers: &mut [Worker<L>],
)
    ensures parts { (i : ℕ) (d : _) → i < length workers.old → (slice_index_or workers.new i d).pass.parts ≡ (slice_index_or workers.old i d).pass.parts }
    ensures done { (i : ℕ) (d : _) → i < length workers.old → (slice_index_or workers.new i d).fault ≡ None
        → GoOn rounds (slice_index_or workers.old i d).pass.noted.items (slice_index_or workers.new i d).pass.noted.items }
    ensures fault { (i : ℕ) (d : _) → i < length workers.old → IfSome (slice_index_or workers.new i d).fault (λ r. StopsWorker r) }
{
    let count = workers.len();
    if count == 0 {
        return;
    }
    thread::for_each_mut(
        rt,
        workers,
        count,
        &|i, worker| work(rt, semaphore, gate, i, rounds, worker),
    );
}

/// One worker's rounds.
fn work<L: Ledger, R: Wait, G: Gate>(
    rt: &R,
    semaphore: &RecordedSemaphore<L>,
    gate: &G,
    number: usize,
    rounds: u32,
    worker: &mut Worker<L>,
)
    ensures parts { worker.new.pass.parts ≡ worker.old.pass.parts }
    ensures done { worker.new.fault ≡ None → GoOn rounds worker.old.pass.noted.items worker.new.pass.noted.items }
    ensures fault { IfSome worker.new.fault (λ r. StopsWorker r) }
{
    let Worker { pass, fault } = worker;
    *fault = rounds_of(rt, semaphore, gate, number, rounds, pass).err();
}

fn rounds_of<L: Ledger, R: Wait, G: Gate>(
    rt: &R,
    semaphore: &RecordedSemaphore<L>,
    gate: &G,
    number: usize,
    rounds: u32,
    pass: &mut Pass<L>,
) -> Result<(), Refused>
    ensures parts { pass.new.parts ≡ pass.old.parts }
    ensures done { OnOk result (GoOn rounds pass.old.noted.items pass.new.noted.items) }
    ensures fault { IfErr result (λ r. StopsWorker r) }
{
    for round in 0..rounds {
        gate.before(number, round);
        one_round(rt, semaphore, pass)?;
    }
    Ok(())
}

/// Tries for one permit, and gives it back where it was there.
fn one_round<L: Ledger, R: Wait>(
    rt: &R,
    semaphore: &RecordedSemaphore<L>,
    pass: &mut Pass<L>,
) -> Result<(), Refused>
    ensures parts { pass.new.parts ≡ pass.old.parts }
    ensures done { OnOk result (GoOnOnce pass.old.noted.items pass.new.noted.items) }
    ensures fault { IfErr result (λ r. StopsWorker r) }
{
    let tried = semaphore.act(rt, pass, &SemEvent::Try(0, 1))?;
    if is_held(&tried.answer) {
        semaphore.act(rt, pass, &SemEvent::End(tried.number))?;
    }
    Ok(())
}
