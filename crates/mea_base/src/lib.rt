//! What every primitive stands on: the list of waiters, the outbox of wakers, the list of those that are ready, what a
//! poll answers and how a waker is woken. It knows no primitive, no script and no thread.
#![tactic(auto)]

mod links;
mod no_memory;
mod outbox;
mod overflow;
mod poll;
mod ready;
mod steps;
mod turn;
mod wait_list;
mod wake;

pub use no_memory::NoMemory;
pub use outbox::Outbox;
pub use overflow::Overflow;
pub use poll::Poll;
pub use ready::Ready;
pub use steps::Steps;
pub use turn::Turn;
pub use wait_list::WaitList;
pub use wake::Wake;
