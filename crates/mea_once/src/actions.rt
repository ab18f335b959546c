use mea_once_model::{Errand, Initialiser, WholeUse};

/// What a line may do to a call that runs once and to a cell. In each action `o` is its name, and `f` that of a future.
#[derive(Clone, Copy)]
pub enum TurnAction {
    /// Makes an empty one.
    Make,
    /// Makes a future that does this: `o`, errand.
    Begin(u64, Errand),
    /// Polls a future: `f`, waker.
    Poll(u64, u64),
    /// Settles the initialiser of a future: `f`, what it comes to.
    Settle(u64, Initialiser),
    /// Ends a future.
    End(u64),
    /// Tells whether it is full.
    TellFull(u64),
    /// Tells its value.
    Tell(u64),
    /// It is gone.
    Drop(u64),
}

/// What a line does to a cell alone.
#[derive(Clone, Copy)]
pub enum WholeAction {
    /// Makes a cell with this value.
    MakeFull(u64),
    /// Uses the value of a cell that has no future: `o`, what is done to it.
    Use(u64, WholeUse),
    /// Takes it out, and the cell is gone.
    TakeOut(u64),
}

/// What a line does to a group, and may do to a map. In each action `o` is its name, `f` that of a future and `k` a key.
#[derive(Clone, Copy)]
pub enum TableAction {
    /// Makes one.
    Make,
    /// Makes a future that computes the value of a key: `o`, `k`.
    Begin(u64, u64),
    /// Polls a future: `f`, waker.
    Poll(u64, u64),
    /// Settles the initialiser of a future: `f`, what it comes to.
    Settle(u64, Initialiser),
    /// Ends a future.
    End(u64),
    /// Takes a key out: `o`, `k`.
    Discard(u64, u64),
    /// It is gone.
    Drop(u64),
}

/// What a line does to a map alone.
#[derive(Clone, Copy)]
pub enum ValueAction {
    /// Tells the value of a key: `o`, `k`.
    Tell(u64, u64),
    /// Takes a key out, and tells its value: `o`, `k`.
    Remove(u64, u64),
}
