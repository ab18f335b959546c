use thiserror::Error;

/// What was lacking for a permit.
#[derive(Clone, Copy, Debug, PartialEq, Eq, Error)]
pub enum Lack {
    /// Fewer permits are free than were asked.
    #[error("too few permits are free")]
    Permits,
    /// A single part of the ledger is left behind the lock, and it stays there.
    #[error("too few parts of the ledger are left")]
    Parts,
}
