/// The permits of one semaphore, from its making on. `made + released + owed` are always
/// `free + held + paid + forgotten`.
#[derive(Clone, Copy, Debug, PartialEq, Eq)]
pub struct Ledger {
    /// The permits that it was made with.
    pub made: u128,
    /// The permits that were released.
    pub released: u128,
    /// What its debts still lack.
    pub owed: u128,
    /// The free permits.
    pub free: u128,
    /// The permits that living permits hold.
    pub held: u128,
    /// The permits that were paid to living futures.
    pub paid: u128,
    /// The permits that were taken away for ever.
    pub forgotten: u128,
}
