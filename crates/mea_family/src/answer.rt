use crate::ledger::Ledger;

/// The reply to an event, without its wakes: one variant for each thing that an event of any family
/// tells. In a comment, the words of its text.
#[derive(Clone, Copy, Debug, PartialEq, Eq)]
pub enum Answer {
    /// `made`: a thing was made, named by the event's number.
    Made,
    /// `some`: what was asked for was there, and the event's number names it.
    Held,
    /// `none`: what was asked for was not there.
    Lacking,
    /// `yes`
    Yes,
    /// `no`
    No,
    /// `ready`: a future is done, and gone.
    Ready,
    /// `pending`: a future waits, and keeps the waker of this poll.
    Pending,
    /// `leader`: a future is done, and completed the round.
    Leader,
    /// `done`
    Done,
    /// `ok`: a message was accepted, or a count has ended.
    Accepted,
    /// `full v`: a message was refused for want of a place.
    Full(u64),
    /// `closed v`: a message was refused, since nobody will receive it.
    Closed(u64),
    /// `got v`: a message was received.
    Got(u64),
    /// `empty`: there is no message yet.
    Empty,
    /// `gone`: there will be no message any more.
    Gone,
    /// `free k`: the free permits.
    Free(u64),
    /// `forgot k`: the permits that were taken away.
    Forgot(u64),
    /// `permits k`: the size of a permit.
    Permits(u64),
    /// `count k`
    Count(u64),
    /// `left k`
    Left(u64),
    /// `value v`
    Value(u64),
    /// `err e`: an initialiser failed.
    Failure(u64),
    /// `back v`: a value was handed back.
    Back(u64),
    /// `held c v`: a cell kept the value c, and v came back.
    Kept(u64, u64),
    /// `key k`
    Key(u64),
    /// `lagged k`: so many messages were missed.
    Lagged(u64),
    /// `ledger` and its seven numbers.
    Account(Ledger),
}
