/// What an event does to the one semaphore that it names.
#[derive(Clone, Copy)]
pub enum Action {
    /// Tells how many permits are free.
    Free,
    /// Takes at most so many free permits away.
    Forget(u64),
    /// Takes so many permits away, those that are not free as a debt.
    ForgetExact(u64),
    /// Adds so many permits.
    Release(u64),
    /// Takes so many permits away where it is open and they are free: nothing is left of a permit that could borrow the semaphore.
    TryAndForget(u64),
    /// Ends its name.
    EndName,
    /// Closes it.
    Close,
    /// Tells whether it is closed.
    Closed,
    /// Tells its account.
    Ledger,
}
