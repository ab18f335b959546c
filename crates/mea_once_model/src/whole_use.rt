/// What is done to the value of a cell that has no future.
#[derive(Clone, Copy)]
pub enum WholeUse {
    /// It is told.
    Tells,
    /// Another is written in its place, where there is one.
    Writes(u64),
    /// It is taken out, and told.
    Takes,
}
