use crate::kept::Kept;
use mea_base::NoMemory;
use mea_family::{Answer, Ledger};
use mea_text::number_of;
use std::alloc::Global;

/// What an event was answered, with the wakers that it made ready.
#[derive(Drop)]
pub struct Reply {
    pub answer: Answer,
    pub wakes: Vec<u64>,
    /// The free permits of semaphore 0 after it.
    pub free: Option<u64>,
}

/// Puts the reply of a line of text, and the free permits after it, if there are any.
pub fn put_reply(
    alloc: Global,
    kept: &mut Kept,
    line: &[u8],
    free: Option<&[u8]>,
) -> Result<(), NoMemory> {
    let mut word: &[u8] = b"";
    let mut numbers = Vec::new(alloc);
    let mut wakes = Vec::new(alloc);
    let mut woken = false;
    for part in line.split(|byte| *byte == b' ') {
        match number_of(part) {
            Some(number) if woken => wakes.push(number)?,
            Some(number) => numbers.push(number)?,
            None if part == b"wake".as_slice() => woken = true,
            None => word = part,
        }
    }
    kept.add(Reply {
        answer: answer_of(word, numbers.as_slice()),
        wakes,
        free: free.and_then(|digits| number_of(digits)),
    })
}

// The answer of a word and its numbers: of those words that stand in the cases.
fn answer_of(word: &[u8], numbers: &[u64]) -> Answer {
    match (word, numbers) {
        (b"made", _) => Answer::Made,
        (b"some", _) => Answer::Held,
        (b"none", _) => Answer::Lacking,
        (b"yes", _) => Answer::Yes,
        (b"no", _) => Answer::No,
        (b"ready", _) => Answer::Ready,
        (b"pending", _) => Answer::Pending,
        (b"ok", _) => Answer::Accepted,
        (b"gone", _) => Answer::Gone,
        (b"got", [v]) => Answer::Got(*v),
        (b"free", [k]) => Answer::Free(*k),
        (b"permits", [k]) => Answer::Permits(*k),
        (b"ledger", [m, r, o, f, h, p, g]) => Answer::Account(Ledger {
            made: u128::from(*m),
            released: u128::from(*r),
            owed: u128::from(*o),
            free: u128::from(*f),
            held: u128::from(*h),
            paid: u128::from(*p),
            forgotten: u128::from(*g),
        }),
        _ => Answer::Done,
    }
}
