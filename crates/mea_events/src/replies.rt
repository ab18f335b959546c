ghost use Rattle.std.specs.Prelude.{◌≡◌, ◌≢◌, ◌+◌, ◌-◌, ◌<◌, ◌≤◌, ◌++◌, ◌∷◌, [], length, IsOk, OnOk, slice_get, slice_range, Some};
ghost use Rattle.std.specs.Option.{option_map, option_map_or};
ghost use Rattle.mea_events.specs.Replies.{ReplyList, with_wake};

use mea_base::NoMemory;
use mea_family::Answer;
use std::alloc::Global;
use std::marker::Model;

/// An answer, and where its wakes begin.
#[derive(Clone, Copy)]
pub struct Reply {
    answer: Answer,
    first: usize,
}

/// What events were answered, each answer with the wakers that the event made ready.
#[derive(Drop)]
pub struct Replies {
    replies: Vec<Reply>,
    // The wakes of all replies, one after another.
    wakes: Vec<u64>,
}

impl Model for Replies {
    ghost use Rattle.std.specs.Prelude.{◌-◌, length, vec_len, vec_capacity};
    ghost use Rattle.mea_events.specs.Replies.{ReplyList};

    ghost Value = { ReplyList };

    ghost use Rattle.mea_events.specs.RepliesInside.{replies_of, AreOrdered};

    ghost view = { λ a. record { replies = replies_of a.replies.items a.wakes.items; room = vec_capacity a.replies - vec_len a.replies; spare = vec_capacity a.wakes - vec_len a.wakes } };

    ghost invariant = { λ a. AreOrdered a.replies.items (length a.wakes.items) };
}

impl Replies {
    /// No replies. It takes no memory.
    pub fn new(alloc: Global) -> Replies
        ensures { result.replies ≡ [] }
    {
        Replies {
            replies: Vec::new(alloc),
            wakes: Vec::new(alloc),
        }
    }

    /// How many replies there are. It takes no memory.
    pub fn len(&self) -> usize
        ensures { result ≡ length self.now.replies }
    {
        self.replies.len()
    }

    /// Makes room for so many more replies and so many more wakes. Over many calls the time is that of the
    /// replies and wakes that are pushed.
    pub fn reserve(&mut self, replies: usize, wakes: usize) -> Result<(), NoMemory>
        ensures room { OnOk result ((replies ≤ self.new.room) × (wakes ≤ self.new.spare)) }
        ensures succeeds { replies ≤ self.old.room → wakes ≤ self.old.spare → IsOk result }
        ensures grows { (self.old.room ≤ self.new.room) × (self.old.spare ≤ self.new.spare) }
        ensures rest_kept { self.new.replies ≡ self.old.replies }
    {
        if self.replies.reserve(replies).is_err() || self.wakes.reserve(wakes).is_err() {
            return Err(NoMemory);
        }
        Ok(())
    }

    /// Appends a reply with no wakes. It takes no memory.
    pub fn push(&mut self, answer: Answer)
        requires { 1 ≤ self.old.room }
        ensures { self.new ≡ record { replies = self.old.replies ++ (answer, []) ∷ []; room = self.old.room - 1; spare = self.old.spare } }
    {
        let first = self.wakes.len();
        self.replies.push_reserved(Reply { answer, first });
    }

    /// Appends a wake to the last reply. It takes no memory.
    pub fn add_wake(&mut self, waker: u64)
        requires room { 1 ≤ self.old.spare }
        requires last { self.old.replies ≢ [] }
        ensures { self.new ≡ record { replies = with_wake self.old.replies waker; room = self.old.room; spare = self.old.spare - 1 } }
    {
        self.wakes.push_reserved(waker);
    }

    /// The answer of a reply. It takes no memory.
    pub fn answer(&self, index: usize) -> &Answer
        requires { index < length self.now.replies }
        ensures { option_map (λ r. r.0) (slice_get self.now.replies index) ≡ Some result.now }
    {
        &self.replies[index].answer
    }

    /// The wakes of a reply, in the order in which they were made ready. It takes no memory.
    pub fn wakes(&self, index: usize) -> &[u64]
        requires { index < length self.now.replies }
        ensures { option_map (λ r. r.1) (slice_get self.now.replies index) ≡ Some result.now }
    {
        let first = self.replies[index].first;
        let end = end_of(&self.replies, self.wakes.len(), index);
        between(&self.wakes, first, end)
    }
}

/// Where the wakes of a reply end, of `wakes` in all.
fn end_of(replies: &[Reply], wakes: usize, index: usize) -> usize
    requires { index < length replies.now }
    ensures { result ≡ option_map_or (λ next. next.first) (slice_get replies.now (index + 1)) wakes }
{
    replies.get(index + 1).map_or(wakes, |next| next.first)
}

fn between(wakes: &[u64], first: usize, end: usize) -> &[u64]
    requires { (first ≤ end) × (end ≤ length wakes.now) }
    ensures { result.now ≡ slice_range wakes.now first end }
{
    &wakes[first..end]
}
