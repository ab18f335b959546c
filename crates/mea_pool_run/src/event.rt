/// What a line of a script of a pool stands for. A name is the number of the line that made what it names.
#[derive(Clone, Copy, Debug, PartialEq, Eq)]
pub enum PoolEvent {
    /// `ask`: a wait for a lease, named by this line.
    Ask,
    /// `wait`: a wait for the end of the drain, named by this line.
    Wait,
    /// `poll f w`: the wait f is polled with the waker w.
    Poll(u64, u64),
    /// `use l v`: the resource of the lease l is v now.
    Use(u64, u64),
    /// `back l`: the lease l is put back.
    Back(u64),
    /// `end f`: the wait f is given up.
    End(u64),
    /// `drain`: no more is lent.
    Drain,
    /// `idle`: how many resources are on the shelf.
    Idle,
}
