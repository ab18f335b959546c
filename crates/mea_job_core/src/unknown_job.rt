use thiserror::Error;

/// The job is not queued. Nothing has changed.
#[derive(Clone, Copy, Debug, PartialEq, Eq, Error)]
#[error("the job is not queued")]
pub struct UnknownJob;
