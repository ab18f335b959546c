use crate::lease::Lease;

/// What a poll of a lease answers: a lease, pending with the waker kept, or closed, since the pool is draining.
#[derive(Drop)]
pub enum LeasePoll<R> {
    Got(Lease<R>),
    Pending,
    Closed,
}
