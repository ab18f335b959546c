use crate::access::Access;
use mea_family::Form;

/// What a line does to mutexes, and may do to reader-writer locks. In each action `o` is the name of a lock, `f` that of
/// a future, `g` that of a guard, and `x` that of either.
#[derive(Clone, Copy)]
pub enum LockAction {
    /// Makes a lock: its value, and how many permits it has.
    Make(u64, usize),
    /// Makes a future, to read or to write: `o`.
    Begin(u64, Form, Access),
    /// Polls a future: `f`, waker.
    Poll(u64, u64),
    /// Makes a guard where its permits are free: `o`.
    Try(u64, Form, Access),
    /// Tells the value: `g`.
    Get(u64),
    /// Writes it: `g`, value.
    Set(u64, u64),
    /// Ends a future or a guard: `x`.
    End(u64),
    /// Tells the value of a lock that has nothing: `o`.
    Peek(u64),
    /// Writes it: `o`, value.
    Put(u64, u64),
    /// Takes it out, and the lock is gone: `o`.
    Take(u64),
    /// Ends the name of a lock: `o`.
    Drop(u64),
}
