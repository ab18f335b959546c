ghost use Rattle.std.specs.Prelude.{◌≡◌, cond};
ghost use Rattle.mea_family.specs.Family.{is_pending};

use crate::answer::Answer;
use std::marker::Model;

/// The word of a reply, with its numbers. Each variant is the one of `Answer` that has its name; those that only semaphores tell
/// are not here.
#[derive(Drop)]
pub enum Word {
    Made,
    Held,
    Lacking,
    Yes,
    No,
    Ready,
    Pending,
    Leader,
    Done,
    Accepted,
    Full(u64),
    Closed(u64),
    Got(u64),
    Empty,
    Gone,
    Free(u64),
    Count(u64),
    Left(u64),
    Value(u64),
    Failure(u64),
    Back(u64),
    Kept(u64, u64),
    Key(u64),
    Lagged(u64),
}

/// The reply to an event, as halls hand it from call to call. A clause sees the `Answer` that it stands for.
///
/// An `Answer` has room for the account of a semaphore, and each call that returns one copies that room. This has room for a
/// word and two numbers, and becomes an `Answer` once.
#[derive(Drop)]
pub struct Reply(pub Word);

impl Model for Reply {
    ghost use Rattle.mea_family.specs.declared.answer.Answer.{Answer as Reply};
    ghost use Rattle.mea_family.specs.Replies.{answer_of};

    ghost Value = { Reply };

    ghost view = { λ a. answer_of a.0 };
}

impl Reply {
    /// The answer that it stands for.
    #[inline(always)]
    pub fn into_answer(self) -> Answer
        ensures { result ≡ self }
    {
        match self.0 {
            Word::Made => Answer::Made,
            Word::Held => Answer::Held,
            Word::Lacking => Answer::Lacking,
            Word::Yes => Answer::Yes,
            Word::No => Answer::No,
            Word::Ready => Answer::Ready,
            Word::Pending => Answer::Pending,
            Word::Leader => Answer::Leader,
            Word::Done => Answer::Done,
            Word::Accepted => Answer::Accepted,
            Word::Full(v) => Answer::Full(v),
            Word::Closed(v) => Answer::Closed(v),
            Word::Got(v) => Answer::Got(v),
            Word::Empty => Answer::Empty,
            Word::Gone => Answer::Gone,
            Word::Free(k) => Answer::Free(k),
            Word::Count(k) => Answer::Count(k),
            Word::Left(k) => Answer::Left(k),
            Word::Value(v) => Answer::Value(v),
            Word::Failure(e) => Answer::Failure(e),
            Word::Back(v) => Answer::Back(v),
            Word::Kept(kept, back) => Answer::Kept(kept, back),
            Word::Key(k) => Answer::Key(k),
            Word::Lagged(missed) => Answer::Lagged(missed),
        }
    }

    /// Whether it is that a future waits.
    pub fn is_pending(&self) -> bool
        ensures { result ≡ is_pending self.now }
    {
        matches!(self.0, Word::Pending)
    }
}

/// The reply to a question: `yes` where this holds, and `no` where it does not.
pub fn yes_if(holds: bool) -> Reply
    ensures { result ≡ cond holds Answer.Yes Answer.No }
{
    Reply(if holds { Word::Yes } else { Word::No })
}
