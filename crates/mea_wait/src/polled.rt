/// What the poll of a wait answers.
pub enum Polled<F, R> {
    /// The wait is over, and this is what it gives.
    Ready(R),
    /// It goes on, and its waker is kept until its next poll.
    Pending(F),
}
