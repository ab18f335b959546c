use crate::sort::Sort;
use crate::thing::Thing;

/// What an event does, as far as a picture shows it. What it makes has the event's number as its name.
#[derive(Clone, Copy)]
pub enum Deed {
    /// Makes an object.
    Makes(Sort),
    /// Makes a thing that may wait, at the object that this name leads to.
    Begins(Sort, u64),
    /// Makes a further handle of the object that this name leads to.
    Copies(u64),
    /// Polls a thing with a waker.
    Polls(Thing, u64),
    /// Ends a thing.
    Ends(Thing),
    /// Asks or does something else.
    Other,
}
