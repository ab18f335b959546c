ghost use Rattle.std.specs.Prelude.{◌≡◌, ◌+◌, ◌<◌, ◌≤◌, ◌^◌, All, IfOk, IfErr, IfSome, OnErr, length, filter_map, vec_len, sum_by};
ghost use Rattle.mea_sem_core.specs.Core.{held_of};
ghost use Rattle.mea_named_run.specs.Gathered.{IsGathered, IsFault};

use crate::counts::Counts;
use crate::fault::Fault;
use mea_counted::{NamedPermit, NamedSemaphore};
use mea_sem_core::SemCore;
use std::alloc::{AllocError, Global};
use std::marker::Brand;
use std::sync::Wait;
use std::sync::ledger::{Blank, Ledger};
use std::thread;
use std::thread::Threads;

/// The parts of the ledger.
const PARTS: u64 = 1_000_000;

/// The permits of the semaphore that the workers share.
const PERMITS: usize = 2;

/// Workers that share a named semaphore of two permits, each on a thread of its own: in each round each tries for a
/// permit, and gives it back, but keeps that of its last round. What is counted once all are joined.
pub fn gathered<R: Threads + Wait + Sync>(
    rt: &R,
    alloc: Global,
    workers: u32,
    rounds: u32,
) -> Result<Counts, Fault>
    requires { workers ≤ 8 }
    ensures counts { IfOk result (λ counts. IsGathered workers counts) }
    ensures fault { IfErr result (λ fault. IsFault fault) }
{
    gathered_in::<Brand, R>(rt, alloc, Blank::new(PARTS), workers, rounds)
}

fn gathered_in<L: Ledger + Send + Sync, R: Threads + Wait + Sync>(
    rt: &R,
    alloc: Global,
    blank: Blank,
    workers: u32,
    rounds: u32,
) -> Result<Counts, Fault>
    requires name { blank.name ≡ L.name }
    requires parts { (blank.parts ≡ L.parts) × (L.parts ≡ 1000000) }
    requires workers { workers ≤ 8 }
    ensures counts { IfOk result (λ counts. IsGathered workers counts) }
    ensures fault { IfErr result (λ fault. IsFault fault) }
{
    let semaphore = NamedSemaphore::<L>::new(alloc, blank, PARTS, PERMITS);
    let Ok(permits) = kept_of(rt, alloc, &semaphore, workers as usize, rounds) else {
        return Err(Fault::NoMemory);
    };
    let kept = total(permits.as_slice());
    match semaphore.close(permits) {
        Ok(core) => Ok(counted(kept, &core)),
        Err(missing) => Err(Fault::Missing(missing)),
    }
}

fn counted(kept: u64, core: &SemCore<u64>) -> Counts
    ensures { result ≡ record { kept = kept; held = held_of core.now; free = core.now.free } }
{
    Counts {
        kept,
        held: core.held() as u64,
        free: core.available_permits() as u64,
    }
}

/// The permits that the workers keep, of whom each has a thread.
fn kept_of<L: Ledger + Send + Sync, R: Threads + Wait + Sync>(
    rt: &R,
    alloc: Global,
    semaphore: &NamedSemaphore<L>,
    workers: usize,
    rounds: u32,
) -> Result<Vec<NamedPermit<L>>, AllocError>
    ensures one { IfOk result (λ v. All (λ p. p.permits ≡ 1) v.items) }
    ensures few { IfOk result (λ v. vec_len v ≤ workers) }
{
    let kept = thread::map_indices(
        rt,
        alloc,
        workers,
        &|_| -> Option<NamedPermit<L>>
            ensures { IfSome result (λ p. p.permits ≡ 1) }
        { work(rt, semaphore, rounds) },
    )?;
    together(alloc, kept)
}

/// One worker's rounds, and the permit that it got in its last.
fn work<L: Ledger, R: Wait>(
    rt: &R,
    semaphore: &NamedSemaphore<L>,
    rounds: u32,
) -> Option<NamedPermit<L>>
    ensures { IfSome result (λ p. p.permits ≡ 1) }
{
    if rounds == 0 {
        return None;
    }
    for _ in 1..rounds {
        one_round(rt, semaphore);
    }
    semaphore.try_acquire(rt, 1).ok()
}

/// Tries for one permit, and gives it back where it was there.
fn one_round<L: Ledger, R: Wait>(rt: &R, semaphore: &NamedSemaphore<L>) {
    if let Ok(permit) = semaphore.try_acquire(rt, 1) {
        permit.end(rt, semaphore);
    }
}

/// All permits that were kept, in the order of the workers.
fn together<L: Ledger>(
    alloc: Global,
    kept: Vec<Option<NamedPermit<L>>>,
) -> Result<Vec<NamedPermit<L>>, AllocError>
    requires { All (λ o. IfSome o (λ p. p.permits ≡ 1)) kept.items }
    ensures all { IfOk result (λ v. v.items ≡ filter_map (λ o. o) kept.items) }
    ensures one { IfOk result (λ v. All (λ p. p.permits ≡ 1) v.items) }
    ensures few { IfOk result (λ v. vec_len v ≤ vec_len kept) }
{
    let mut permits = Vec::new(alloc);
    for own in kept {
        if let Some(permit) = own {
            permits.push(permit)?;
        }
    }
    Ok(permits)
}

/// The sizes of these permits together.
fn total<L: Ledger>(permits: &[NamedPermit<L>]) -> u64
    requires { All (λ p. p.permits ≡ 1) permits.now }
    ensures sum { result ≡ sum_by (λ p. p.permits) permits.now }
    ensures few { result ≤ length permits.now }
{
    let mut total = 0;
    for permit in permits {
        total += permit.permits() as u64;
    }
    total
}
