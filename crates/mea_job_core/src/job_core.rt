ghost use Rattle.std.specs.Prelude.{◌≡◌, ◌+◌, ◌<◌, ◌≤◌, ◌↔◌, ◌-◌, [], ◌∷◌, length, Some, true, false, IsTrue, IsSome, IsOk, IfOk, IfErr, IfSome, IfNone};
ghost use Rattle.std.specs.FinMap as map;
ghost use Rattle.mea_job_core.specs.Service.{Service, new_service, given, refusal_of, RefusedBy, after_submit, finish_answer, after_finish, recall_answer, after_recall, take_answer, after_take, after_stop, back_answer, after_back, PollsEnd, is_over, counts_of};
ghost use Rattle.mea_job_core.specs.Work.{start_of};

use crate::counts::Counts;
use crate::finish_error::FinishError;
use crate::start::Start;
use crate::submit_error::SubmitError;
use crate::unknown_job::UnknownJob;
use crate::work::Work;
use mea_base::{NoMemory, Poll};
use mea_chan_core::BoundedCore;
use mea_meet_core::{GroupWait, ShutdownCore};
use std::alloc::Global;
use std::marker::Model;

/// The core of a job service.
///
/// A job has a number, a key and a value. As many run as there are permits; the others are queued, and where a job is
/// finished the one starts whose key has the fewest running jobs, and among these the least number. What is over leaves a
/// count behind, and no room.
pub struct JobCore<W> {
    work: Work,
    // How many jobs may be queued.
    most_queued: usize,
    // The least number that was not given.
    next: u64,
    finished: u64,
    returned: u64,
    results: BoundedCore<(u64, u64), W>,
    // One receiver until the stop, and one for each job that is queued or runs.
    shutdown: ShutdownCore<W>,
    // The wait for the last of them.
    end: GroupWait,
}

impl<W> Model for JobCore<W> {
    ghost use Rattle.std.specs.Prelude.{◌≡◌, ◌≤◌};
    ghost use Rattle.mea_job_core.specs.Service.{Service, service_code, first_waker};

    ghost Value = { Service W };

    ghost coded = { service_code W.code };

    ghost use Rattle.mea_job_core.specs.Parts.{IsOnly, IsQuiet, IsShut, IsCounted};

    ghost view = { λ c. record {
      work = c.work.seen;
      most_queued = c.most_queued;
      capacity = c.results.capacity;
      next = c.next;
      results = c.results.queued;
      finished = c.finished;
      returned = c.returned;
      waker = first_waker c.shutdown.receivers.waiting.wakers;
      wakes = c.shutdown.wakes;
    } };

    ghost invariant = { λ c. record {
      quiet : IsQuiet c.results;
      shut : IsShut c.shutdown c.work.seen;
      only : IsOnly c.shutdown.receivers.waiting c.end;
      counted : IsCounted c.work.seen c.most_queued c.next c.finished c.returned;
      asked : c.work.asked ≤ c.next;
    } };
}

// Written out: a derived one is proved anew in each crate that hands a value of this type to a generic function.
impl<W: Drop> Drop for JobCore<W> {
    fn drop(self) {
        let JobCore {
            work: _,
            most_queued: _,
            next: _,
            finished: _,
            returned: _,
            results: _,
            shutdown: _,
            end: _,
        } = self;
    }
}

// So many receivers less, where one more lives. It wakes nobody.
fn end_receivers<W: Drop>(shutdown: &mut ShutdownCore<W>, less: u32)
    requires { less < shutdown.old.receivers.number }
    ensures { shutdown.new ≡ record shutdown.old { receivers = record shutdown.old.receivers { number = shutdown.old.receivers.number - less } } }
{
    shutdown.leave(less);
}

impl<W: Drop> JobCore<W> {
    /// A service with this many permits, for as many queued jobs and results as are said. Room for the results is
    /// reserved now.
    pub fn new(
        alloc: Global,
        permits: usize,
        most_queued: usize,
        results: usize,
    ) -> Result<Self, NoMemory>
        requires some { (0 < permits) × (0 < most_queued) × (0 < results) }
        requires few { permits + most_queued < 4294967295 }
        ensures { IfOk result (λ service. service ≡ new_service permits most_queued results) }
    {
        let results = BoundedCore::new(alloc, results)?;
        let work = Work::new(alloc, permits);
        let shutdown = ShutdownCore::new(alloc);
        let end = GroupWait::new();
        Ok(JobCore {
            work,
            most_queued,
            next: 0,
            finished: 0,
            returned: 0,
            results,
            shutdown,
            end,
        })
    }

    /// Accepts a job, which runs where a permit is free and else is queued. Its number counts as given even where it is
    /// refused: the next one must be greater.
    pub fn submit(&mut self, number: u64, key: u64, value: u64) -> Result<Start, SubmitError>
        requires { (self.old.next ≤ number) × (number < 18446744073709551615) }
        ensures ok { IfOk result (λ start. (refusal_of self.old ≡ None) × (start ≡ start_of self.old.work) × (self.new ≡ after_submit self.old number key value)) }
        ensures err { IfErr result (λ e. RefusedBy (refusal_of self.old) e × (self.new ≡ given self.old number)) }
    {
        self.next = number + 1;
        if self.work.is_stopped() {
            return Err(SubmitError::Stopped);
        }
        if self.work.free() == 0 && self.work.queued() == self.most_queued {
            return Err(SubmitError::Full);
        }
        let Ok(start) = self.work.accept(number, key, value) else {
            return Err(SubmitError::NoMemory);
        };
        match self.shutdown.add_receiver() {
            Ok(()) => Ok(start),
            Err(_) => unreachable!(),
        }
    }

    /// Whether a number was not given, as `submit` asks. It takes no memory.
    pub fn submit_allowed(&self, number: u64) -> bool
        ensures { IsTrue result ↔ ((self.now.next ≤ number) × (number < 18446744073709551615)) }
    {
        self.next <= number && number < u64::MAX
    }

    /// A running job is finished with this outcome as its result; the answer is the job that started now, if any. It takes no memory.
    pub fn finish(&mut self, job: u64, outcome: u64) -> Result<Option<u64>, FinishError>
        ensures answer { result ≡ finish_answer self.old job }
        ensures after { self.new ≡ after_finish self.old job outcome }
    {
        if !self.work.is_running(job) {
            return Err(FinishError::Unknown);
        }
        let Ok(()) = self.results.try_send((job, outcome)) else {
            return Err(FinishError::Full);
        };
        let started = self.work.end(job);
        self.finished += 1;
        self.shutdown.end_receiver();
        Ok(started)
    }

    /// Returns a queued job; the answer is its value. It takes no memory.
    pub fn recall(&mut self, job: u64) -> Result<u64, UnknownJob>
        ensures answer { result ≡ recall_answer self.old job }
        ensures after { self.new ≡ after_recall self.old job }
    {
        if !self.work.is_queued(job) {
            return Err(UnknownJob);
        }
        let value = self.work.recall(job);
        self.returned += 1;
        self.shutdown.end_receiver();
        Ok(value)
    }

    /// Takes the oldest result that was not taken, as job and result. It takes no memory.
    pub fn take(&mut self) -> Option<(u64, u64)>
        ensures answer { result ≡ take_answer self.old }
        ensures after { self.new ≡ after_take self.old }
    {
        match self.results.try_recv() {
            Ok(pair) => Some(pair),
            Err(_) => None,
        }
    }

    /// Stops the service: no job is accepted any more, and each queued job is returned. It takes no memory.
    pub fn stop(&mut self)
        ensures { self.new ≡ after_stop self.old }
    {
        if self.work.is_stopped() {
            return;
        }
        let queued = self.work.queued();
        self.work.halt();
        self.returned += queued as u64;
        self.shutdown.signal();
        end_receivers(&mut self.shutdown, queued as u32);
        self.shutdown.end_receiver();
    }

    /// Hands out the first of the jobs that `stop` returned, as job and value, by rising number. It takes no memory.
    pub fn take_back(&mut self) -> Option<(u64, u64)>
        ensures answer { result ≡ back_answer self.old }
        ensures after { self.new ≡ after_back self.old }
    {
        self.work.take_back()
    }

    /// Is ready where the service was stopped and no job runs. Else the waker is kept, in place of the one before, until
    /// the call after which this holds; with no memory it comes back, and nothing has changed.
    pub fn poll_end(&mut self, waker: W) -> Result<Poll<()>, (W, NoMemory)>
        ensures polls { PollsEnd self.old waker result self.new }
        ensures replaces { IsSome self.old.waker → IsOk result }
    {
        self.shutdown.poll_receivers(&mut self.end, waker)
    }

    /// How many jobs were accepted, and what has become of them. It takes no memory.
    pub fn counts(&self) -> Counts
        ensures { result ≡ counts_of self.now }
    {
        let running = self.work.running() as u64;
        let queued = self.work.queued() as u64;
        Counts {
            accepted: running + queued + self.finished + self.returned,
            running,
            queued,
            finished: self.finished,
            returned: self.returned,
        }
    }

    /// How many wakers are ready. It takes no memory.
    pub fn wakes_ready(&self) -> usize
        ensures { result ≡ length self.now.wakes }
    {
        self.shutdown.wakes_ready()
    }

    /// Takes the first waker that is ready. It takes no memory.
    pub fn next_wake(&mut self) -> Option<W>
        ensures first { IfSome result (λ waker. self.old ≡ record self.new { wakes = waker ∷ self.new.wakes }) }
        ensures empty { IfNone result ((self.old.wakes ≡ []) × (self.new ≡ self.old)) }
    {
        self.shutdown.next_wake()
    }
}
