/// What a poll answers: ready, with the waker handed back so that a later stage of the same poll can
/// keep it, or pending, with the waker kept.
#[derive(Debug, PartialEq, Eq, Drop)]
pub enum Turn<W> {
    Ready(W),
    Pending,
}
