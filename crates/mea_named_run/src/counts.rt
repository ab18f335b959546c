/// What is counted once all workers are joined.
#[derive(Clone, Copy, Debug, Drop, PartialEq, Eq)]
pub struct Counts {
    /// The sizes of the permits that were kept, together.
    pub kept: u64,
    /// The permits that are held.
    pub held: u64,
    /// The permits that are free.
    pub free: u64,
}
