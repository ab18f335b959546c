/// The waker of a future or a receiver that waits, with its name, so that the queue of a core tells who waits.
#[derive(Clone, Copy, Debug, PartialEq, Eq)]
pub struct NamedWaker {
    pub name: u64,
    pub waker: u64,
}
