/// What a poll for one's turn at a cell answers.
#[derive(Debug, PartialEq, Eq, Drop)]
pub enum CellTurn<W> {
    /// The cell has a value, and the call has ended.
    Full,
    /// The cell is empty, and the turn is the caller's, until it fills the cell or gives the turn up. The
    /// waker is handed back.
    Mine(W),
    /// Another call has the turn, and the waker is kept.
    Pending,
}
