use thiserror::Error;

/// Why a job was not accepted. Its number counts as given; nothing else has changed.
#[derive(Clone, Copy, Debug, PartialEq, Eq, Error)]
pub enum SubmitError {
    /// The service was stopped.
    #[error("the service was stopped")]
    Stopped,
    /// No permit is free, and as many jobs are queued as may be.
    #[error("the queue is full")]
    Full,
    /// There was no memory.
    #[error("out of memory")]
    NoMemory,
}
