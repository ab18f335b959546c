ghost use Rattle.std.specs.Prelude.{◌≡◌, ◌++◌, take, length, Ok, OnOk};
ghost use Rattle.mea_job_run.specs.Text.{said, submit_text, done_text, finish_text, recall_text, hand_text, poll_text, counts_text};

use mea_base::{NoMemory, Poll};
use mea_job_core::{Counts, FinishError, Start, UnknownJob};
use mea_text::{put_line, put_number, put_text};

// Appends a word with its number, where there is one.
fn put_said(text: &mut Vec<u8>, word: &[u8], number: Option<u64>) -> Result<(), NoMemory>
    ensures ok { OnOk result (text.new.items ≡ text.old.items ++ said word.now number) }
    ensures kept { take (length text.old.items) text.new.items ≡ text.old.items }
{
    match number {
        None => Ok(()),
        Some(number) => {
            put_text(text, word)?;
            put_number(text, number)
        }
    }
}

// Appends the reply to a job that was accepted.
pub(crate) fn put_started(text: &mut Vec<u8>, start: Start) -> Result<(), NoMemory>
    ensures ok { OnOk result (text.new.items ≡ text.old.items ++ submit_text (Ok start)) }
    ensures kept { take (length text.old.items) text.new.items ≡ text.old.items }
{
    match start {
        Start::Running => put_text(text, b"running\n"),
        Start::Queued => put_text(text, b"queued\n"),
    }
}

// Appends the reply to a job that was finished: who started then, and who was woken.
pub(crate) fn put_finished(
    text: &mut Vec<u8>,
    answer: Result<Option<u64>, FinishError>,
    woken: Option<u64>,
) -> Result<(), NoMemory>
    ensures ok { OnOk result (text.new.items ≡ text.old.items ++ finish_text answer woken) }
    ensures kept { take (length text.old.items) text.new.items ≡ text.old.items }
{
    match answer {
        Ok(started) => put_done(text, started, woken),
        Err(FinishError::Full) => put_text(text, b"full\n"),
        Err(FinishError::Unknown) => put_text(text, b"unknown\n"),
    }
}

// Appends `done`, and who started and who was woken.
#[tactic(auto, using(crate::proofs::Puts::kept_before))]
pub(crate) fn put_done(
    text: &mut Vec<u8>,
    started: Option<u64>,
    woken: Option<u64>,
) -> Result<(), NoMemory>
    ensures ok { OnOk result (text.new.items ≡ text.old.items ++ done_text started woken) }
    ensures kept { take (length text.old.items) text.new.items ≡ text.old.items }
{
    put_text(text, b"done")?;
    put_said(text, b" start", started)?;
    put_said(text, b" wake", woken)?;
    put_text(text, b"\n")
}

// Appends the reply to a job that was recalled: its value.
pub(crate) fn put_recalled(
    text: &mut Vec<u8>,
    answer: Result<u64, UnknownJob>,
) -> Result<(), NoMemory>
    ensures ok { OnOk result (text.new.items ≡ text.old.items ++ recall_text answer) }
    ensures kept { take (length text.old.items) text.new.items ≡ text.old.items }
{
    match answer {
        Ok(value) => put_line(text, b"value", value),
        Err(UnknownJob) => put_text(text, b"unknown\n"),
    }
}

// Appends a job with its result or its value.
#[tactic(auto, using(crate::proofs::Puts::kept_before))]
pub(crate) fn put_handed(text: &mut Vec<u8>, answer: Option<(u64, u64)>) -> Result<(), NoMemory>
    ensures ok { OnOk result (text.new.items ≡ text.old.items ++ hand_text answer) }
    ensures kept { take (length text.old.items) text.new.items ≡ text.old.items }
{
    let Some((job, number)) = answer else {
        return put_text(text, b"none\n");
    };
    put_text(text, b"job")?;
    put_number(text, job)?;
    put_number(text, number)?;
    put_text(text, b"\n")
}

// Appends the reply to a poll of the end.
pub(crate) fn put_polled(text: &mut Vec<u8>, answer: Poll<()>) -> Result<(), NoMemory>
    ensures ok { OnOk result (text.new.items ≡ text.old.items ++ poll_text answer) }
    ensures kept { take (length text.old.items) text.new.items ≡ text.old.items }
{
    match answer {
        Poll::Ready(()) => put_text(text, b"ready\n"),
        Poll::Pending => put_text(text, b"pending\n"),
    }
}

// Appends the counts.
#[tactic(auto, using(crate::proofs::Puts::kept_before))]
pub(crate) fn put_counts(text: &mut Vec<u8>, counts: &Counts) -> Result<(), NoMemory>
    ensures ok { OnOk result (text.new.items ≡ text.old.items ++ counts_text counts.now) }
    ensures kept { take (length text.old.items) text.new.items ≡ text.old.items }
{
    put_text(text, b"count")?;
    put_number(text, counts.accepted)?;
    put_number(text, counts.running)?;
    put_number(text, counts.queued)?;
    put_number(text, counts.finished)?;
    put_number(text, counts.returned)?;
    put_text(text, b"\n")
}
