ghost use Rattle.std.specs.Prelude.{◌≡◌, ◌<◌, ◌≤◌, ◌++◌, ℕ, List, [], take, length, codes, IsTrue, OnOk, OnErr};
ghost use Rattle.mea_text.specs.Text.{number_text, numbers_text};
ghost use Rattle.mea_text.specs.Reply.{word_of, numbers_in, only_in, end_of, account_numbers, wakes_text, reply_text};

use crate::text::{put_number, put_text, put_total};
use mea_base::NoMemory;
use mea_family::{Answer, Ledger};

/// Appends the text of a reply, with its newline. A reply that wakes nobody and has one digit at most is put in as one
/// piece, so that the text grows once.
pub fn put_reply(out: &mut Vec<u8>, answer: &Answer, wakes: &[u64]) -> Result<(), NoMemory>
    ensures ok { OnOk result (out.new.items ≡ out.old.items ++ reply_text answer.now wakes.now) }
    ensures err { OnErr result (out.new.items ≡ out.old.items) }
{
    if !wakes.is_empty() {
        return put_whole(out, answer, wakes);
    }
    match number_of(answer) {
        Some(n) if n < 10 => put_digit(out, line_of(answer), n as u8),
        None if is_bare(answer) => put_text(out, line_of(answer)),
        _ => put_whole(out, answer, wakes),
    }
}

/// Appends a line that ends with the digit 0, and puts another digit in its place.
#[tactic(auto, using(crate::proofs::LastDigits::with_digit))]
fn put_digit(out: &mut Vec<u8>, line: &[u8], digit: u8) -> Result<(), NoMemory>
    requires digit { digit < 10 }
    requires line { 2 ≤ length line.now }
    ensures ok { OnOk result ((word : List ℕ) → line.now ≡ word ++ codes " 0\n" → out.new.items ≡ out.old.items ++ (word ++ (number_text digit ++ codes "\n"))) }
    ensures err { OnErr result (out.new.items ≡ out.old.items) }
{
    put_text(out, line)?;
    let place = out.len() - 2;
    out[place] = b'0' + digit;
    Ok(())
}

/// Appends the text of a reply part by part.
#[inline(never)]
fn put_whole(out: &mut Vec<u8>, answer: &Answer, wakes: &[u64]) -> Result<(), NoMemory>
    ensures ok { OnOk result (out.new.items ≡ out.old.items ++ reply_text answer.now wakes.now) }
    ensures err { OnErr result (out.new.items ≡ out.old.items) }
{
    let start = out.len();
    let put = put_parts(out, answer, wakes);
    if put.is_err() {
        out.truncate(start);
    }
    put
}

/// Appends the parts of a reply, or some of them.
#[tactic(auto, using(crate::proofs::Puts::kept_before))]
fn put_parts(out: &mut Vec<u8>, answer: &Answer, wakes: &[u64]) -> Result<(), NoMemory>
    ensures ok { OnOk result (out.new.items ≡ out.old.items ++ reply_text answer.now wakes.now) }
    ensures kept { take (length out.old.items) out.new.items ≡ out.old.items }
{
    put_text(out, word_of(answer))?;
    put_numbers(out, answer)?;
    put_wakes(out, wakes)?;
    put_text(out, b"\n")
}

/// Whether an answer is a word alone.
fn is_bare(answer: &Answer) -> bool
    ensures { IsTrue result → numbers_in answer.now ≡ [] }
{
    matches!(
        answer,
        Answer::Made
            | Answer::Held
            | Answer::Lacking
            | Answer::Yes
            | Answer::No
            | Answer::Ready
            | Answer::Pending
            | Answer::Leader
            | Answer::Done
            | Answer::Accepted
            | Answer::Empty
            | Answer::Gone
    )
}

/// The one number after an answer's word, or none where there are none or several.
fn number_of(answer: &Answer) -> Option<u64>
    ensures { result ≡ only_in (numbers_in answer.now) }
{
    match answer {
        Answer::Full(n)
        | Answer::Closed(n)
        | Answer::Got(n)
        | Answer::Free(n)
        | Answer::Forgot(n)
        | Answer::Permits(n)
        | Answer::Count(n)
        | Answer::Left(n)
        | Answer::Value(n)
        | Answer::Failure(n)
        | Answer::Back(n)
        | Answer::Key(n)
        | Answer::Lagged(n) => Some(*n),
        _ => None,
    }
}

#[tactic(auto, using(crate::proofs::LastDigits::before_end))]
fn word_of(answer: &Answer) -> &'static [u8]
    ensures { result.now ≡ word_of answer.now }
{
    let line = line_of(answer);
    let end = if number_of(answer).is_some() { 3 } else { 1 };
    &line[..line.len() - end]
}

/// The word of an answer, with its end: a newline, and before it the digit 0 where one number follows the word.
fn line_of(answer: &Answer) -> &'static [u8]
    ensures { result.now ≡ word_of answer.now ++ end_of (numbers_in answer.now) }
{
    match answer {
        Answer::Made => b"made\n",
        Answer::Held => b"some\n",
        Answer::Lacking => b"none\n",
        Answer::Yes => b"yes\n",
        Answer::No => b"no\n",
        Answer::Ready => b"ready\n",
        Answer::Pending => b"pending\n",
        Answer::Leader => b"leader\n",
        Answer::Done => b"done\n",
        Answer::Accepted => b"ok\n",
        Answer::Full(_) => b"full 0\n",
        Answer::Closed(_) => b"closed 0\n",
        Answer::Got(_) => b"got 0\n",
        Answer::Empty => b"empty\n",
        Answer::Gone => b"gone\n",
        Answer::Free(_) => b"free 0\n",
        Answer::Forgot(_) => b"forgot 0\n",
        Answer::Permits(_) => b"permits 0\n",
        Answer::Count(_) => b"count 0\n",
        Answer::Left(_) => b"left 0\n",
        Answer::Value(_) => b"value 0\n",
        Answer::Failure(_) => b"err 0\n",
        Answer::Back(_) => b"back 0\n",
        Answer::Kept(..) => b"held\n",
        Answer::Key(_) => b"key 0\n",
        Answer::Lagged(_) => b"lagged 0\n",
        Answer::Account(_) => b"ledger\n",
    }
}

fn put_numbers(out: &mut Vec<u8>, answer: &Answer) -> Result<(), NoMemory>
    ensures ok { OnOk result (out.new.items ≡ out.old.items ++ numbers_text (numbers_in answer.now)) }
    ensures kept { take (length out.old.items) out.new.items ≡ out.old.items }
{
    if let Some(n) = number_of(answer) {
        return put_number(out, n);
    }
    match answer {
        Answer::Kept(kept, back) => {
            put_number(out, *kept)?;
            put_number(out, *back)
        }
        Answer::Account(ledger) => put_account(out, ledger),
        _ => Ok(()),
    }
}

fn put_account(out: &mut Vec<u8>, ledger: &Ledger) -> Result<(), NoMemory>
    ensures ok { OnOk result (out.new.items ≡ out.old.items ++ numbers_text (account_numbers ledger.now)) }
    ensures kept { take (length out.old.items) out.new.items ≡ out.old.items }
{
    let totals = [
        ledger.made,
        ledger.released,
        ledger.owed,
        ledger.free,
        ledger.held,
        ledger.paid,
        ledger.forgotten,
    ];
    put_totals(out, &totals)
}

#[tactic(auto, using(crate::proofs::Puts::kept_before))]
fn put_totals(out: &mut Vec<u8>, totals: &[u128]) -> Result<(), NoMemory>
    ensures ok { OnOk result (out.new.items ≡ out.old.items ++ numbers_text totals.now) }
    ensures kept { take (length out.old.items) out.new.items ≡ out.old.items }
{
    for total in totals {
        put_total(out, *total)?;
    }
    Ok(())
}

fn put_wakes(out: &mut Vec<u8>, wakes: &[u64]) -> Result<(), NoMemory>
    ensures ok { OnOk result (out.new.items ≡ out.old.items ++ wakes_text wakes.now) }
    ensures kept { take (length out.old.items) out.new.items ≡ out.old.items }
{
    if wakes.is_empty() {
        return Ok(());
    }
    put_text(out, b" wake")?;
    put_wakers(out, wakes)
}

#[tactic(auto, using(crate::proofs::Puts::kept_before))]
fn put_wakers(out: &mut Vec<u8>, wakes: &[u64]) -> Result<(), NoMemory>
    ensures ok { OnOk result (out.new.items ≡ out.old.items ++ numbers_text wakes.now) }
    ensures kept { take (length out.old.items) out.new.items ≡ out.old.items }
{
    for waker in wakes {
        put_number(out, *waker)?;
    }
    Ok(())
}
