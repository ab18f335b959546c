ghost use Rattle.std.specs.Prelude.{◌≡◌, ◌≢◌, ◌++◌, ℕ, Some, length, take, IfOk, OnOk, OnErr, codes};
ghost use Rattle.std.specs.Result.{result_err};
ghost use Rattle.mea_family.specs.declared.stop.Stop.{Stop as Why};
ghost use Rattle.mea_script.specs.Runs.{line_of};
ghost use Rattle.mea_text.specs.Text.{number_text};
ghost use Rattle.mea_script.specs.Told.{status_at, ending_at, cause_text};

use crate::status::Status;
use mea_base::NoMemory;
use mea_family::Stop;
use mea_text::{put_line, put_number, put_text};

/// Appends the last line, and answers how the script ended.
pub fn put_ending(
    text: &mut Vec<u8>,
    ended: Result<(), Stop>,
    bad: bool,
    long: bool,
    n: u64,
) -> Result<Status, NoMemory>
    ensures memory { OnOk result (ended ≢ Err Stop.NoMemory) }
    ensures status { IfOk result (λ status. status ≡ status_at (result_err ended) bad long n) }
    ensures text { OnOk result (text.new.items ≡ text.old.items ++ ending_at (result_err ended) bad long n) }
    ensures cause { IfOk result (λ status. (at : ℕ) → status ≢ Status.Stopped at Stop.NoMemory) }
    ensures stopped { IfOk result (λ status. (at : ℕ) (stop : Why) → status ≡ Status.Stopped at stop → ended ≡ Err stop) }
    ensures line { IfOk result (λ status. (m : ℕ) → line_of status ≡ Some m → m ≡ n) }
    ensures err { OnErr result (text.new.items ≡ text.old.items) }
{
    let start = text.len();
    let put = put_last_line(text, ended, bad, long, n);
    if put.is_err() {
        text.truncate(start);
    }
    put
}

/// Appends the last line, or some of it.
fn put_last_line(
    text: &mut Vec<u8>,
    ended: Result<(), Stop>,
    bad: bool,
    long: bool,
    n: u64,
) -> Result<Status, NoMemory>
    ensures memory { OnOk result (ended ≢ Err Stop.NoMemory) }
    ensures status { IfOk result (λ status. status ≡ status_at (result_err ended) bad long n) }
    ensures text { OnOk result (text.new.items ≡ text.old.items ++ ending_at (result_err ended) bad long n) }
    ensures cause { IfOk result (λ status. (at : ℕ) → status ≢ Status.Stopped at Stop.NoMemory) }
    ensures stopped { IfOk result (λ status. (at : ℕ) (stop : Why) → status ≡ Status.Stopped at stop → ended ≡ Err stop) }
    ensures line { IfOk result (λ status. (m : ℕ) → line_of status ≡ Some m → m ≡ n) }
    ensures kept { take (length text.old.items) text.new.items ≡ text.old.items }
{
    match ended {
        Err(Stop::NoMemory) => Err(NoMemory),
        Err(stop) => {
            put_stop(text, stop, n)?;
            Ok(Status::Stopped { at: n, cause: stop })
        }
        Ok(()) if bad => {
            put_line(text, b"bad", n)?;
            Ok(Status::BadLine { at: n })
        }
        Ok(()) if long => {
            put_line(text, b"long", n)?;
            Ok(Status::TooLong)
        }
        Ok(()) => {
            put_line(text, b"done", n)?;
            Ok(Status::Done)
        }
    }
}

#[tactic(auto, using(crate::proofs::Puts::kept_before))]
fn put_stop(text: &mut Vec<u8>, stop: Stop, n: u64) -> Result<(), NoMemory>
    ensures ok { OnOk result (text.new.items ≡ text.old.items ++ (codes "stop" ++ number_text n ++ cause_text stop ++ codes "\n")) }
    ensures kept { take (length text.old.items) text.new.items ≡ text.old.items }
{
    put_text(text, b"stop")?;
    put_number(text, n)?;
    put_text(text, cause_text(stop))?;
    put_text(text, b"\n")
}

fn cause_text(stop: Stop) -> &'static [u8]
    ensures { result.now ≡ cause_text stop }
{
    match stop {
        Stop::Unknown => b" unknown",
        Stop::Borrowed => b" borrowed",
        Stop::Zero => b" zero",
        Stop::Overflow => b" overflow",
        Stop::NoMemory => b"",
    }
}
