/// Whether an accepted job runs at once.
#[derive(Clone, Copy, Debug, PartialEq, Eq, Drop)]
pub enum Start {
    /// A permit was free, and the job has it.
    Running,
    /// It waits for a permit.
    Queued,
}
