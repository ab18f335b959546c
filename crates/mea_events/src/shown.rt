use std::fmt;

/// An event as it is shown: its name, how many numbers it has, and its place among the events of its family, with its
/// numbers after it.
pub(crate) type Shown = (&'static str, usize, [u64; 4]);

/// Writes an event as a derive would: its name, and its numbers in brackets.
pub(crate) fn shown<O: fmt::Write>(f: &mut fmt::Formatter<O>, event: Shown) -> fmt::Result {
    let (name, numbers, [_, first, second, third]) = event;
    match numbers {
        0 => f.write_str(name),
        1 => f.debug_tuple(name).field(&first).finish(),
        2 => f.debug_tuple(name).field(&first).field(&second).finish(),
        _ => f
            .debug_tuple(name)
            .field(&first)
            .field(&second)
            .field(&third)
            .finish(),
    }
}
