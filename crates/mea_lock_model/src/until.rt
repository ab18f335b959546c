/// When a wait on a condition variable that has the lock is ready.
#[derive(Clone, Copy)]
pub enum Until {
    /// At once.
    Held,
    /// Where the value is at least this.
    Reached(u64),
    /// Never: it gives the lock up.
    Never,
}
