use mea_family::{Reply, Word};

/// What a poll told: its reply, and whether its future is over.
#[derive(Drop)]
pub struct PollReply {
    pub answer: Reply,
    pub over: bool,
}

/// What a poll tells whose future waits on.
pub const PENDING: PollReply = PollReply {
    answer: Reply(Word::Pending),
    over: false,
};
