/// What a line of a script of jobs stands for. A job has the number of its line.
#[derive(Clone, Copy, Debug, Drop)]
pub enum JobEvent {
    /// A job of this key and with this value is submitted.
    Job(u64, u64),
    /// The job of this number is finished with this result.
    Finish(u64, u64),
    /// The job of this number is recalled.
    Recall(u64),
    /// The oldest result is taken.
    Take,
    /// The first job that the stop returned is handed back.
    Back,
    /// The service is stopped.
    Stop,
    /// The end is polled with this waker.
    Poll(u64),
    /// The jobs are counted.
    Count,
}
