/// What a line does to condition variables. In each action `c` is the name of one, `f` that of a wait, and `g` that of
/// a guard of a mutex.
#[derive(Clone, Copy)]
pub enum CondAction {
    /// Makes one.
    Make,
    /// Makes a wait, which takes a guard over: `c`, `g`, and the value that it waits for, if it waits for one.
    Wait(u64, u64, Option<u64>),
    /// Polls a wait: `f`, waker.
    Poll(u64, u64),
    /// Notifies the first that waits: `c`.
    One(u64),
    /// Notifies each that waits: `c`.
    All(u64),
    /// Ends a wait: `f`.
    End(u64),
    /// Ends a condition variable that has no wait: `c`.
    Drop(u64),
}
