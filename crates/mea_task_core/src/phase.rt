/// How far a task is with its next step. A future is meant by its name, the number of the event that made it.
#[derive(Clone, Copy, Debug, PartialEq, Eq)]
pub enum Phase {
    /// It is in the run queue or runs, and has no future.
    Queued,
    /// It runs, and has made the future of its step, which was not polled yet.
    Asks(u64),
    /// It waits with the future of its step, and is not in the run queue.
    Waits(u64),
    /// It is in the run queue or runs, since the future of its step was granted.
    Woken(u64),
    /// All its steps are over.
    Finished,
    /// A release of it was refused.
    Failed,
}
