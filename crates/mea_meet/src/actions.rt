use crate::new_point::NewPoint;
use mea_family::Form;

/// What a line does to points that count, of whichever kind. In each action `k` is the name of a holder, `s` that of a
/// sender, `f` that of a future, and `x` that of a holder or a future.
#[derive(Clone, Copy)]
pub enum CountAction {
    /// Makes a point, with its first holder.
    Make(NewPoint),
    /// Tells whether the signal is set: `k`.
    Now(u64),
    /// Takes from the signal: `k`, how much.
    Arrive(u64, u32),
    /// Makes a future on the signal: `k`.
    Begin(u64, Form),
    /// Makes a further holder, counted as the one beside it: `k`.
    Join(u64),
    /// Makes a holder that is not counted, beside one that is: `k`.
    Watch(u64),
    /// Makes a future on the end of the members of a holder, which ends: `k`.
    Into(u64),
    /// Ends a holder that no future borrows: `k`.
    EndHolder(u64),
    /// Makes a future on the end of the members, beside another: `f`.
    Copy(u64),
    /// Polls a future: `f`, waker.
    Poll(u64, u64),
    /// Ends a future: `f`.
    EndWait(u64),
    /// Ends a holder, or else a future: `x`.
    EndEither(u64),
    /// Makes a further sender, beside one: `s`.
    CopySender(u64),
    /// Sets the signal: `s`.
    Send(u64),
    /// Makes a future on the end of the members of a sender, which ends: `s`.
    Await(u64),
    /// Ends a sender: `s`.
    EndSender(u64),
}
