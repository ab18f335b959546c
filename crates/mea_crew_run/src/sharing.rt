ghost use Rattle.std.specs.Prelude.{◌≡◌, ◌≢◌, ◌+◌, ◌*◌, ◌<◌, ◌≤◌, ◌^◌, [], None, All, IfOk, IfErr, IfSome, OnOk, length, vec_len, sum_by};
ghost use Rattle.mea_crew_run.specs.Crew.{IsOfCrew, IsCrewFault};
ghost use Rattle.mea_crew_run.specs.Rounds.{AreRounds, StopsWorker};

use crate::fault::CrewFault;
use crate::gate::Gate;
use crate::gathering::{gather, hire};
use crate::worker::{Worker, work_all};
use mea_recorded::{Recorded, RecordedSemaphore};
use std::alloc::Global;
use std::marker::Brand;
use std::sync::Wait;
use std::sync::ledger::{Blank, Ledger};
use std::thread::Threads;

/// The parts of the ledger that the workers of a crew share.
const PARTS: u64 = 16;

/// The permits of the semaphore that a crew shares.
const PERMITS: usize = 2;

/// Workers that share a recorded semaphore of two permits: in each round each calls the gate, tries for a permit and
/// gives it back. Gives the history, once all are joined. Each has a thread of its own.
pub fn crew<R: Threads + Wait + Sync, G: Gate>(
    rt: &R,
    alloc: Global,
    workers: u32,
    rounds: u32,
    gate: &G,
) -> Result<Recorded, CrewFault>
    requires workers { (1 ≤ workers) × (workers ≤ 8) }
    requires rounds { rounds ≤ 10000 }
    ensures crew { IfOk result (λ r. IsOfCrew workers rounds r) }
    ensures fault { IfErr result (λ fault. IsCrewFault rounds fault) }
{
    crew_in::<Brand, R, G>(rt, alloc, Blank::new(PARTS), workers, rounds, gate)
}

fn crew_in<L: Ledger + Send + Sync, R: Threads + Wait + Sync, G: Gate>(
    rt: &R,
    alloc: Global,
    blank: Blank,
    workers: u32,
    rounds: u32,
    gate: &G,
) -> Result<Recorded, CrewFault>
    requires name { blank.name ≡ L.name }
    requires parts { (blank.parts ≡ L.parts) × (L.parts ≡ 16) }
    requires workers { workers ≤ 8 }
    requires rounds { rounds ≤ 10000 }
    ensures crew { IfOk result (λ r. IsOfCrew workers rounds r) }
    ensures fault { IfErr result (λ fault. IsCrewFault rounds fault) }
{
    let Ok((semaphore, mut rest)) = RecordedSemaphore::<L>::new(alloc, blank, PARTS, PERMITS) else {
        return Err(CrewFault::NoMemory);
    };
    let Ok(mut list) = hire(alloc, &semaphore, &mut rest, workers as usize) else {
        return Err(CrewFault::NoMemory);
    };
    worked(rt, &semaphore, gate, rounds, &mut list);
    let passes = match gather(alloc, rest, list, rounds) {
        Ok(passes) => passes,
        Err(fault) => return Err(fault),
    };
    match semaphore.close(passes) {
        Ok(recorded) => Ok(recorded),
        Err((recorded, mismatch)) => {
            let _entries = recorded.entries();
            Err(CrewFault::Mismatch(mismatch))
        }
    }
}

/// After the work each worker has its one part, and the receipts of its rounds where it had no fault.
fn worked<L: Ledger + Send + Sync, R: Threads + Wait + Sync, G: Gate>(
    rt: &R,
    semaphore: &RecordedSemaphore<L>,
    gate: &G,
    rounds: u32,
    list: &mut Vec<Worker<L>>,
)
    requires { All (λ w. (w.pass.parts ≡ 1) × (w.pass.noted.items ≡ [])) list.old.items }
    ensures count { vec_len list.new ≡ vec_len list.old }
    ensures each { All (λ w. (w.pass.parts ≡ 1) × (w.fault ≡ None → AreRounds rounds w.pass.noted.items)) list.new.items }
    ensures faults { All (λ w. IfSome w.fault (λ r. StopsWorker r)) list.new.items }
{
    work_all(rt, semaphore, gate, rounds, list.as_mut_slice());
}
