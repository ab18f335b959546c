use mea_family::Form;

/// What a line does to admissions. In each action `o` is the name of an admission, `k` a key, `f` the name of a future, `p`
/// that of a permit, and `x` that of either.
#[derive(Clone, Copy)]
pub enum ShareAction {
    /// Makes an admission of so many permits.
    Make(u64),
    /// Tells the free permits: `o`.
    Free(u64),
    /// Tells how many futures wait: `o`.
    Waiters(u64),
    /// Tells the weight of a key: `o`, `k`.
    Weight(u64, u64),
    /// Sets it: `o`, `k`, weight.
    Weigh(u64, u64, u64),
    /// Takes a permit for a key, where one is free and nobody waits: `o`, `k`.
    Try(u64, u64, Form),
    /// Makes a future of a permit for a key: `o`, `k`.
    Begin(u64, u64, Form),
    /// Polls a future: `f`, waker.
    Poll(u64, u64),
    /// Tells the key of a permit: `p`.
    Key(u64),
    /// Ends a future or a permit: `x`.
    End(u64),
    /// Ends the name of an admission: `o`.
    Drop(u64),
}
