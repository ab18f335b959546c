/// What the initialiser of a future comes to: it is not settled, or it gives a value, or it fails with an error.
#[derive(Clone, Copy, Debug, PartialEq, Eq)]
pub enum Initialiser {
    Unsettled,
    Gives(u64),
    Fails(u64),
}

/// What a future does at its cell.
#[derive(Clone, Copy, Debug, PartialEq, Eq)]
pub enum Errand {
    /// It runs its initialiser, and tells no value.
    Calls(Initialiser),
    /// It runs its initialiser, and tells the value.
    Computes(Initialiser),
    /// The same, and nobody else uses the cell.
    Alone(Initialiser),
    /// It puts a value in, and tells whether it did.
    Sets(u64),
    /// It puts a value in, and tells what is there.
    Inserts(u64),
    /// It waits until the cell is full.
    Awaits,
}
