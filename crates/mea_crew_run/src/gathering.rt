ghost use Rattle.std.specs.Prelude.{◌≡◌, ◌+◌, ◌*◌, ◌<◌, ◌≤◌, ◌^◌, ◌⊎◌, [], None, All, IfOk, IfErr, IfSome, OnOk, length, vec_len, sum_by};
ghost use Rattle.mea_crew_run.specs.Crew.{IsWorkFault};
ghost use Rattle.mea_crew_run.specs.Rounds.{AreRounds, StopsWorker};

use crate::fault::CrewFault;
use crate::worker::Worker;
use mea_family::Stop;
use mea_recorded::{Pass, RecordedSemaphore};
use std::alloc::{AllocError, Global};
use std::sync::ledger::Ledger;

/// Workers with one part each, cut from the pass.
pub fn hire<L: Ledger>(
    alloc: Global,
    semaphore: &RecordedSemaphore<L>,
    rest: &mut Pass<L>,
    workers: usize,
) -> Result<Vec<Worker<L>>, AllocError>
    requires { workers < rest.old.parts }
    ensures rest { OnOk result ((rest.new.parts + workers ≡ rest.old.parts) × (rest.new.noted.items ≡ rest.old.noted.items)) }
    ensures count { IfOk result (λ v. vec_len v ≡ workers) }
    ensures each { IfOk result (λ v. All (λ w. (w.pass.parts ≡ 1) × (w.pass.noted.items ≡ [])) v.items) }
{
    let mut list = Vec::new(alloc);
    for _i in 0..workers {
        let pass = semaphore.split(rest);
        list.push(Worker { pass, fault: None })?;
    }
    Ok(list)
}

/// The passes of the workers, none of whom had a fault, and the rest of the pass that they were cut from.
pub fn gather<L: Ledger>(
    alloc: Global,
    rest: Pass<L>,
    mut list: Vec<Worker<L>>,
    rounds: u32,
) -> Result<Vec<Pass<L>>, CrewFault>
    requires none { rest.noted.items ≡ [] }
    requires each { All (λ w. (w.pass.parts ≡ 1) × (w.fault ≡ None → AreRounds rounds w.pass.noted.items)) list.items }
    requires faults { All (λ w. IfSome w.fault (λ r. StopsWorker r)) list.items }
    ensures parts { IfOk result (λ v. sum_by (λ p. p.parts) v.items ≡ rest.parts + vec_len list) }
    ensures least { IfOk result (λ v. vec_len list * rounds ≤ sum_by (λ p. vec_len p.noted) v.items) }
    ensures most { IfOk result (λ v. sum_by (λ p. vec_len p.noted) v.items ≤ vec_len list * (2 * rounds)) }
    ensures rounds { IfOk result (λ v. All (λ p. (p.noted.items ≡ []) ⊎ AreRounds rounds p.noted.items) v.items) }
    ensures fault { IfErr result (λ fault. IsWorkFault fault) }
{
    let mut passes = Vec::new(alloc);
    if passes.push(rest).is_err() {
        return Err(CrewFault::NoMemory);
    }
    while let Some(worker) = list.pop() {
        let pass = match finished(worker, rounds) {
            Ok(pass) => pass,
            Err(fault) => return Err(fault),
        };
        if passes.push(pass).is_err() {
            return Err(CrewFault::NoMemory);
        }
    }
    Ok(passes)
}

/// The pass of a worker who had no fault.
#[tactic(auto, using(crate::proofs::Rounds::rounds_are_counted))]
fn finished<L: Ledger>(worker: Worker<L>, rounds: u32) -> Result<Pass<L>, CrewFault>
    requires rounds { (worker.pass.parts ≡ 1) × (worker.fault ≡ None → AreRounds rounds worker.pass.noted.items) }
    requires fault { IfSome worker.fault (λ r. StopsWorker r) }
    ensures pass { IfOk result (λ p. (p.parts ≡ 1) × (rounds ≤ vec_len p.noted) × (vec_len p.noted ≤ 2 * rounds)) }
    ensures rounds { IfOk result (λ p. AreRounds rounds p.noted.items) }
    ensures fault { IfErr result (λ fault. IsWorkFault fault) }
{
    let Worker { pass, fault } = worker;
    match fault {
        None => Ok(pass),
        Some(refused) => match refused.stop {
            Stop::NoMemory => Err(CrewFault::NoMemory),
            Stop::Unknown | Stop::Borrowed | Stop::Zero | Stop::Overflow => {
                Err(CrewFault::Refused(refused))
            }
        },
    }
}
