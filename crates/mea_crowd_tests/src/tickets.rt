//! Which tasks the crowd has: of which kind each is, and how long it has patience.
use crate::patience::Patience;

/// How many tasks have a number: each but some of a kind that has two ends.
pub(crate) const NUMBERS: u64 = 1000;

// How many kinds of task have a number.
const KINDS: u64 = 18;

/// The kinds of task. The first eighteen have numbers.
#[derive(Clone, Copy, Drop)]
pub(crate) enum Kind {
    Acquires,
    Admits,
    Adds,
    Reads,
    Writes,
    Hears,
    Passes,
    Arrives,
    Stops,
    Posts,
    Says,
    Tells,
    Listens,
    Asks,
    Fills,
    Calls,
    Maps,
    Flies,
    /// It goes before each that asks.
    Answers,
    /// Of each of these there is one.
    Notifies,
    Opens,
    Shuts,
    Takes,
    Collects,
}

// Of which kind the task with this number is.
fn kind_of(number: u64) -> Kind {
    match number % KINDS {
        0 => Kind::Acquires,
        1 => Kind::Admits,
        2 => Kind::Adds,
        3 => Kind::Reads,
        4 => Kind::Writes,
        5 => Kind::Hears,
        6 => Kind::Passes,
        7 => Kind::Arrives,
        8 => Kind::Stops,
        9 => Kind::Posts,
        10 => Kind::Says,
        11 => Kind::Tells,
        12 => Kind::Listens,
        13 => Kind::Asks,
        14 => Kind::Fills,
        15 => Kind::Calls,
        16 => Kind::Maps,
        _ => Kind::Flies,
    }
}

/// Which task is wanted.
#[derive(Clone, Copy, Drop)]
pub(crate) struct Ticket {
    pub(crate) kind: Kind,
    /// How many of its kind have a lower number.
    pub(crate) nth: u64,
    pub(crate) patience: Patience,
}

impl Ticket {
    /// That of the task with this number.
    pub(crate) fn of(number: u64) -> Self {
        Ticket {
            kind: kind_of(number),
            nth: number / KINDS,
            patience: Patience::of(number),
        }
    }

    /// That of the task that answers the one with this number.
    pub(crate) fn answering(number: u64) -> Self {
        Ticket {
            kind: Kind::Answers,
            nth: number / KINDS,
            patience: Patience::of(number.wrapping_add(1)),
        }
    }

    /// That of the only one of its kind, which waits to the end.
    pub(crate) fn alone(kind: Kind) -> Self {
        Ticket {
            kind,
            nth: 0,
            patience: Patience::Endless,
        }
    }

    /// Whether it is that of a task which asks.
    pub(crate) fn asks(self) -> bool {
        matches!(self.kind, Kind::Asks)
    }

    /// Whether it is that of a task which meets others at the barrier, and is polled at least once.
    pub(crate) fn arrives(self) -> bool {
        matches!(self.kind, Kind::Arrives) && !self.patience.is_gone()
    }
}
