/// What a line does to barriers. In each action `b` is the name of a barrier, and `f` that of a future.
#[derive(Clone, Copy)]
pub enum BarrierAction {
    /// Makes a barrier: how many arrivals make a round.
    Make(u32),
    /// Makes a future: `b`.
    Begin(u64),
    /// Polls a future: `f`, waker.
    Poll(u64, u64),
    /// Ends a future; its arrival and its waker stay: `f`.
    End(u64),
    /// Ends a barrier at which no future waits: `b`.
    Drop(u64),
}
