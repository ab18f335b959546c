ghost use Rattle.std.specs.Prelude.{◌≡◌, ◌≤◌, ◌<◌, ◌++◌, [], take, length, OnOk};
ghost use Rattle.mea_job_core.specs.Calls as call;
ghost use Rattle.mea_job_core.specs.Calls.{AddsAtMostOne};
ghost use Rattle.mea_job_core.specs.Service.{first_waker};
ghost use Rattle.mea_job_run.specs.Machine.{call_of, left_by, reply_of};

use crate::event::JobEvent;
use crate::lines::event_of_line;
use crate::replies::{
    put_counts, put_done, put_finished, put_handed, put_polled, put_recalled, put_started,
};
use mea_base::NoMemory;
use mea_family::Stop;
use mea_job_core::{JobCore, SubmitError, a_call_wakes_at_most_one};
use mea_script::Machine;
use mea_text::put_text;

/// A job service as the machine of scripts.
#[derive(Drop)]
pub struct JobMachine {
    pub core: JobCore<u64>,
}

#[tactic(auto, unfolding(crate::specs::Machine::core_rules))]
impl Machine for JobMachine {
    type Event = JobEvent;

    ghost use Rattle.std.specs.Prelude.{ℕ, ◌≡◌, ◌≤◌, []};
    ghost use Rattle.mea_job_core.specs.Service.{Service};
    ghost use Rattle.mea_job_run.specs.Machine.{core_rules};

    ghost State = { Service ℕ };

    ghost state = { λ j. j.core };

    ghost rules = { core_rules };

    ghost stands_at = { λ j n. (j.core.wakes ≡ []) × (j.core.next ≤ n) };

    fn event_of_line(&self, line: &[u8]) -> Option<JobEvent> {
        event_of_line(line)
    }

    fn play(&mut self, number: u64, event: &JobEvent, text: &mut Vec<u8>) -> Result<(), Stop> {
        match play(&mut self.core, number, *event, text) {
            Ok(()) => Ok(()),
            Err(NoMemory) => Err(Stop::NoMemory),
        }
    }

    fn finish(&mut self, _lines: u64, _text: &mut Vec<u8>) -> Result<(), NoMemory> {
        Ok(())
    }
}

// Makes the call of an event, and puts its reply.
fn play(
    core: &mut JobCore<u64>,
    number: u64,
    event: JobEvent,
    text: &mut Vec<u8>,
) -> Result<(), NoMemory>
    requires quiet { core.old.wakes ≡ [] }
    requires new { (core.old.next ≤ number) × (number < 18446744073709551615) }
    ensures core { OnOk result (core.new ≡ left_by core.old (call_of number event)) }
    ensures text { OnOk result (text.new.items ≡ text.old.items ++ reply_of core.old (call_of number event)) }
    ensures kept { take (length text.old.items) text.new.items ≡ text.old.items }
{
    match event {
        JobEvent::Job(key, value) => submit(core, number, key, value, text),
        JobEvent::Finish(job, outcome) => finish(core, job, outcome, text),
        JobEvent::Recall(job) => put_recalled(text, core.recall(job)),
        JobEvent::Take => put_handed(text, core.take()),
        JobEvent::Back => put_handed(text, core.take_back()),
        JobEvent::Stop => stop(core, text),
        JobEvent::Poll(waker) => poll(core, waker, text),
        JobEvent::Count => put_counts(text, &core.counts()),
    }
}

// A job is submitted.
fn submit(
    core: &mut JobCore<u64>,
    number: u64,
    key: u64,
    value: u64,
    text: &mut Vec<u8>,
) -> Result<(), NoMemory>
    requires quiet { core.old.wakes ≡ [] }
    requires new { (core.old.next ≤ number) × (number < 18446744073709551615) }
    ensures core { OnOk result (core.new ≡ left_by core.old (call.Submit number key value)) }
    ensures text { OnOk result (text.new.items ≡ text.old.items ++ reply_of core.old (call.Submit number key value)) }
    ensures kept { take (length text.old.items) text.new.items ≡ text.old.items }
{
    match core.submit(number, key, value) {
        Ok(start) => put_started(text, start),
        Err(SubmitError::Stopped) => put_text(text, b"stopped\n"),
        Err(SubmitError::Full) => put_text(text, b"full\n"),
        Err(SubmitError::NoMemory) => Err(NoMemory),
    }
}

// A job is finished.
fn finish(
    core: &mut JobCore<u64>,
    job: u64,
    outcome: u64,
    text: &mut Vec<u8>,
) -> Result<(), NoMemory>
    requires { core.old.wakes ≡ [] }
    ensures core { core.new ≡ left_by core.old (call.Finish job outcome) }
    ensures text { OnOk result (text.new.items ≡ text.old.items ++ reply_of core.old (call.Finish job outcome)) }
    ensures kept { take (length text.old.items) text.new.items ≡ text.old.items }
{
    a_call_wakes_at_most_one::<u64>();
    let answer = core.finish(job, outcome);
    let woken = take_wake(core);
    put_finished(text, answer, woken)
}

// The service is stopped.
fn stop(core: &mut JobCore<u64>, text: &mut Vec<u8>) -> Result<(), NoMemory>
    requires { core.old.wakes ≡ [] }
    ensures core { core.new ≡ left_by core.old call.Stop }
    ensures text { OnOk result (text.new.items ≡ text.old.items ++ reply_of core.old call.Stop) }
    ensures kept { take (length text.old.items) text.new.items ≡ text.old.items }
{
    a_call_wakes_at_most_one::<u64>();
    core.stop();
    let woken = take_wake(core);
    put_done(text, None, woken)
}

// The end is polled.
fn poll(core: &mut JobCore<u64>, waker: u64, text: &mut Vec<u8>) -> Result<(), NoMemory>
    requires { core.old.wakes ≡ [] }
    ensures core { OnOk result (core.new ≡ left_by core.old (call.PollEnd waker)) }
    ensures text { OnOk result (text.new.items ≡ text.old.items ++ reply_of core.old (call.PollEnd waker)) }
    ensures kept { take (length text.old.items) text.new.items ≡ text.old.items }
{
    match core.poll_end(waker) {
        Ok(answer) => put_polled(text, answer),
        Err(_) => Err(NoMemory),
    }
}

// Takes the one waker that is ready, if there is one.
fn take_wake(core: &mut JobCore<u64>) -> Option<u64>
    requires { AddsAtMostOne [] core.old.wakes }
    ensures core { core.new ≡ record core.old { wakes = [] } }
    ensures first { result ≡ first_waker core.old.wakes }
{
    core.next_wake()
}
