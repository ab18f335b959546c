use thiserror::Error;

/// Why a job was not finished. Nothing has changed.
#[derive(Clone, Copy, Debug, PartialEq, Eq, Error)]
pub enum FinishError {
    /// It does not run.
    #[error("the job does not run")]
    Unknown,
    /// As many results are not taken as there is room for.
    #[error("there is no room for a further result")]
    Full,
}
