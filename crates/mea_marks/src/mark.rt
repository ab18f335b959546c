use crate::row::Stage;
use crate::thing::Thing;
use mea_family::Stop;

/// What a picture shows. An event is known by its number, which is that of its column.
#[derive(Clone, Copy)]
pub enum Mark {
    /// The row of a thing, from the event that has its name, to where it ended.
    Row(Thing, Stage),
    /// An event.
    Event(u64),
    /// An event polls a thing, and is answered `pending`.
    Pending(u64, Thing),
    /// An event polls a thing, which gets what it waits for.
    Ready(u64, Thing),
    /// An event polls a thing, which will not get what it waits for.
    Refused(u64, Thing),
    /// An event ends a thing.
    Ended(u64, Thing),
    /// An event makes a waker ready, with which a thing waits.
    Arrow(u64, u64, Thing),
    /// An event makes a waker ready, with which nothing waits any more.
    Stray(u64, u64),
    /// The line of this number is refused for a cause.
    Cause(u64, Stop),
    /// The line of this number is no event line.
    Bad(u64),
    /// There is more input than is read.
    Long(u64),
}
