/// What has become of a task.
#[derive(Clone, Copy, Debug, PartialEq, Eq)]
pub enum TaskState {
    /// It is in the run queue, or its turn is on.
    Queued,
    /// All its steps are over.
    Finished,
    /// A release of it was refused, since the permits would have passed their greatest number. Its later steps are not run.
    Failed,
    /// It waits for so many permits of the semaphore at this place.
    Waits { semaphore: usize, demand: usize },
}
