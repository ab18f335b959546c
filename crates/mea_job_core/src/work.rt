ghost use Rattle.std.specs.Prelude.{◌≡◌, ◌+◌, ◌≤◌, ◌<◌, Some, false, is_some, IsSome, OnOk, OnErr, IfOk, IfSome, IfNone, nat_eq};
ghost use Rattle.std.specs.FinMap as map;
ghost use Rattle.mea_share_core.specs.Fair.{IsSettled, IsSame};
ghost use Rattle.mea_job_core.specs.Work.{new_work, free_of, start_of, accepted, next_of, number_in, next_after, ended, recalled, halted, first_back, handed, IsAbove, Submission};
ghost use Rattle.mea_job_core.specs.Tied.{submissions, IsFair, Asks, IsAdmittedJob, StartsJob, EndsJob};

use crate::by_order::ByOrder;
use crate::start::Start;
use crate::waiting_job::WaitingJob;
use mea_base::NoMemory;
use mea_by_name::Roomy;
use mea_share_core::{FairCore, ShareAcquire, ShareFault, SharedKey};
use std::alloc::Global;
use std::hash::{BuildHasherDefault, FoldHasher};
use std::marker::Model;

type Fair = FairCore<u64, u64, BuildHasherDefault<FoldHasher>>;

/// The jobs that are queued and those that run, of which each has a permit of fair admission.
///
/// The waker that a job leaves there is its own number. Room for a job that runs is made when it is accepted, so that the
/// next one starts without memory.
#[derive(Drop)]
pub struct Work {
    permits: usize,
    // How many jobs run.
    running_count: usize,
    // Once it was stopped no job starts, and the admission is a new one.
    stopped: bool,
    fair: Fair,
    // Those that are queued, and once it was stopped those to hand back.
    queued: ByOrder<WaitingJob>,
    running: Roomy<SharedKey<u64>>,
    alloc: Global,
}

impl Model for Work {
    ghost use Rattle.std.specs.Prelude.{◌≡◌, ◌+◌, ◌<◌, ◌≤◌, false};
    ghost use Rattle.std.specs.FinMap.{len};
    ghost use Rattle.mea_job_core.specs.Work.{Kept, kept_code};

    ghost Value = { Kept };

    ghost coded = { kept_code };

    ghost use Rattle.mea_job_core.specs.Tied.{work_seen, IsFair};

    ghost view = { λ w. record { seen = work_seen w.permits w.queued w.running.things w.stopped; asked = w.fair.next } };

    ghost invariant = { λ w. record {
      some : 0 < w.permits;
      counted : w.running_count ≡ len w.running.things;
      few : w.running_count ≤ w.permits;
      room : w.stopped ≡ false → len w.queued ≤ w.running.spare;
      free : w.stopped ≡ false → w.fair.free + w.running_count ≡ w.permits;
      fair : w.stopped ≡ false → IsFair w.fair w.queued w.running.things;
    } };
}

// An acquire of a key that waits, with the number of its job as its waker.
fn ask(fair: &mut Fair, key: SharedKey<u64>, number: u64) -> Result<ShareAcquire<u64>, NoMemory>
    requires none { fair.old.free ≡ 0 }
    requires few { fair.old.next < 18446744073709551615 }
    ensures ok { IfOk result (λ acquire. Asks fair.old key number fair.new acquire.key acquire.stage) }
    ensures err { OnErr result (IsSame nat_eq fair.old fair.new) }
    ensures settled { IsSettled fair.new }
{
    let mut acquire = ShareAcquire::new(key);
    match fair.poll(&mut acquire, number) {
        Ok(_) => Ok(acquire),
        Err(ShareFault::NoMemory(_)) => Err(NoMemory),
        Err(ShareFault::Overflow(_)) => unreachable!(),
    }
}

// A job that was admitted starts.
fn start_job(
    fair: &mut Fair,
    queued: &mut ByOrder<WaitingJob>,
    running: &mut Roomy<SharedKey<u64>>,
    number: u64,
)
    requires admitted { IsAdmittedJob fair.old queued.old number }
    requires room { 1 ≤ running.old.spare }
    ensures starts { StartsJob fair.old queued.old running.old number fair.new queued.new running.new }
    ensures settled { IsSettled fair.new }
{
    let job = queued.remove(number);
    let mut acquire = job.acquire;
    match fair.poll(&mut acquire, number) {
        Ok(_) => {}
        Err(_) => unreachable!(),
    }
    running.insert(number, acquire.into_key());
}

// A running job is over: its permit comes back, and the next starts.
fn end_job(
    fair: &mut Fair,
    queued: &mut ByOrder<WaitingJob>,
    running: &mut Roomy<SharedKey<u64>>,
    number: u64,
) -> Option<u64>
    requires fair { IsFair fair.old queued.old running.old.things }
    requires there { IsSome (map.get running.old.things number) }
    requires room { map.len queued.old ≤ running.old.spare }
    ensures fair { IsFair fair.new queued.new running.new.things }
    ensures answer { result ≡ number_in (next_of (submissions queued.old) (map.remove running.old.things number)) }
    ensures ends { EndsJob queued.old running.old.things number queued.new running.new.things }
    ensures room { map.len queued.new ≤ running.new.spare }
    ensures asked { fair.new.next ≡ fair.old.next }
    ensures none { IfNone result ((map.len running.new.things + 1 ≡ map.len running.old.things) × (fair.new.free ≡ fair.old.free + 1) × (map.len queued.new ≡ map.len queued.old)) }
    ensures some { IfSome result (λ _. (map.len running.new.things ≡ map.len running.old.things) × (fair.new.free ≡ fair.old.free) × (map.len queued.new + 1 ≡ map.len queued.old)) }
{
    let key = running.remove(number);
    fair.release(&key);
    let Some(next) = fair.next_wake() else {
        return None;
    };
    start_job(fair, queued, running, next);
    Some(next)
}

impl Work {
    // Nothing, with this many permits. It takes no memory.
    pub(crate) fn new(alloc: Global, permits: usize) -> Self
        requires { 0 < permits }
        ensures is { result.seen ≡ new_work permits }
        ensures asked { result.asked ≡ 0 }
    {
        let fair = FairCore::new(alloc, permits);
        let queued = ByOrder::new(alloc);
        let running = Roomy::new(alloc);
        Work {
            permits,
            running_count: 0,
            stopped: false,
            fair,
            queued,
            running,
            alloc,
        }
    }

    // How many permits are free.
    pub(crate) fn free(&self) -> usize
        ensures is { result ≡ free_of self.now.seen }
        ensures few { map.len self.now.seen.running ≤ self.now.seen.permits }
    {
        self.permits - self.running_count
    }

    // How many jobs are queued.
    pub(crate) fn queued(&self) -> usize
        ensures { result ≡ map.len self.now.seen.queued }
    {
        if self.stopped {
            return 0;
        }
        self.fair.num_waiters()
    }

    // How many jobs run.
    pub(crate) fn running(&self) -> usize
        ensures is { result ≡ map.len self.now.seen.running }
        ensures few { map.len self.now.seen.running ≤ self.now.seen.permits }
    {
        self.running_count
    }

    pub(crate) fn is_stopped(&self) -> bool
        ensures { result ≡ self.now.seen.stopped }
    {
        self.stopped
    }

    // Whether a job is queued.
    pub(crate) fn is_queued(&self, number: u64) -> bool
        ensures { result ≡ is_some (map.get self.now.seen.queued number) }
    {
        if self.stopped {
            return false;
        }
        self.queued.has(number)
    }

    // Whether a job runs.
    pub(crate) fn is_running(&self, number: u64) -> bool
        ensures { result ≡ is_some (map.get self.now.seen.running number) }
    {
        self.running.has(number)
    }

    // A job is accepted.
    pub(crate) fn accept(&mut self, number: u64, key: u64, value: u64) -> Result<Start, NoMemory>
        requires still { self.old.seen.stopped ≡ false }
        requires above { IsAbove self.old.seen number }
        requires few { self.old.asked < 18446744073709551615 }
        ensures ok { IfOk result (λ start. (start ≡ start_of self.old.seen) × (self.new.seen ≡ accepted self.old.seen number key value)) }
        ensures err { OnErr result (self.new.seen ≡ self.old.seen) }
        ensures asked { self.new.asked ≤ self.old.asked + 1 }
    {
        let Ok(key) = SharedKey::new(self.alloc, key) else {
            return Err(NoMemory);
        };
        if self.free() == 0 {
            self.queue(number, key, value)?;
            return Ok(Start::Queued);
        }
        self.run(number, key)?;
        Ok(Start::Running)
    }

    // A job takes a free permit.
    fn run(&mut self, number: u64, key: SharedKey<u64>) -> Result<(), NoMemory>
        requires still { self.old.seen.stopped ≡ false }
        requires above { IsAbove self.old.seen number }
        requires free { 0 < free_of self.old.seen }
        ensures ok { OnOk result (self.new.seen ≡ record self.old.seen { running = map.insert self.old.seen.running number key }) }
        ensures err { OnErr result (self.new.seen ≡ self.old.seen) }
        ensures asked { self.new.asked ≡ self.old.asked }
    {
        let Some(more) = self.fair.num_waiters().checked_add(1) else {
            return Err(NoMemory);
        };
        self.running.reserve(more)?;
        if !self.fair.try_acquire(&key)? {
            unreachable!();
        }
        self.running.insert(number, key);
        self.running_count += 1;
        Ok(())
    }

    // A job is queued.
    fn queue(&mut self, number: u64, key: SharedKey<u64>, value: u64) -> Result<(), NoMemory>
        requires still { self.old.seen.stopped ≡ false }
        requires above { IsAbove self.old.seen number }
        requires none { free_of self.old.seen ≡ 0 }
        requires few { self.old.asked < 18446744073709551615 }
        ensures ok { OnOk result (self.new.seen ≡ record self.old.seen { queued = map.insert self.old.seen.queued number (record { key = key; value = value }) }) }
        ensures err { OnErr result (self.new.seen ≡ self.old.seen) }
        ensures asked { self.new.asked ≤ self.old.asked + 1 }
    {
        let Some(more) = self.fair.num_waiters().checked_add(1) else {
            return Err(NoMemory);
        };
        self.running.reserve(more)?;
        let acquire = ask(&mut self.fair, key, number)?;
        match self.queued.insert(number, WaitingJob { acquire, value }) {
            Ok(()) => Ok(()),
            Err(job) => {
                self.fair.cancel(job.acquire);
                Err(NoMemory)
            }
        }
    }

    // A running job is over, and the next starts. It takes no memory.
    pub(crate) fn end(&mut self, number: u64) -> Option<u64>
        requires { IsSome (map.get self.old.seen.running number) }
        ensures answer { result ≡ number_in (next_after self.old.seen number) }
        ensures ends { self.new.seen ≡ ended self.old.seen number }
        ensures fewer { map.len self.new.seen.queued + map.len self.new.seen.running + 1 ≡ map.len self.old.seen.queued + map.len self.old.seen.running }
        ensures asked { self.new.asked ≤ self.old.asked }
    {
        if self.stopped {
            let _ = self.running.remove(number);
            self.running_count -= 1;
            return None;
        }
        match end_job(&mut self.fair, &mut self.queued, &mut self.running, number) {
            Some(next) => Some(next),
            None => {
                self.running_count -= 1;
                None
            }
        }
    }

    // A queued job is over; its value comes back. It takes no memory.
    pub(crate) fn recall(&mut self, number: u64) -> u64
        requires { IsSome (map.get self.old.seen.queued number) }
        ensures value { (submission : Submission) → map.get self.old.seen.queued number ≡ Some submission → result ≡ submission.value }
        ensures recalls { self.new.seen ≡ recalled self.old.seen number }
        ensures asked { self.new.asked ≤ self.old.asked }
    {
        let job = self.queued.remove(number);
        self.fair.cancel(job.acquire);
        job.value
    }

    // No more jobs are taken; those that are queued are to be handed back. It takes no memory.
    pub(crate) fn halt(&mut self)
        requires { self.old.seen.stopped ≡ false }
        ensures halts { self.new.seen ≡ halted self.old.seen }
        ensures asked { self.new.asked ≤ self.old.asked }
    {
        self.fair = FairCore::new(self.alloc, self.permits);
        self.stopped = true;
    }

    // The first job to hand back, as its number and its value. It takes no memory.
    pub(crate) fn take_back(&mut self) -> Option<(u64, u64)>
        ensures answer { result ≡ first_back self.old.seen }
        ensures hands { self.new.seen ≡ handed self.old.seen }
        ensures asked { self.new.asked ≤ self.old.asked }
    {
        if !self.stopped {
            return None;
        }
        let number = self.queued.first()?;
        let job = self.queued.remove(number);
        Some((number, job.value))
    }
}
