//! How long the tasks of the crowd have patience.

/// How long a task has patience. One that gives up does so where it would be polled once more.
#[derive(Clone, Copy, PartialEq, Eq, Drop)]
pub(crate) enum Patience {
    /// It waits to the end.
    Endless,
    /// It asks for each poll, and gives up after so many, in whatever stage it is then.
    Restless(u64),
    /// It waits to be woken, and gives up after so many polls: with what it was woken for.
    Quiet(u64),
}

impl Patience {
    /// That of the task with this number. Half of them give up, the restless after none to thirty-one polls and the quiet after
    /// one to four.
    pub(crate) fn of(number: u64) -> Self {
        let mixed = number.wrapping_mul(0x9e37_79b9_7f4a_7c15) >> 32;
        match mixed % 8 {
            0 | 1 => Patience::Restless(mixed / 8 % 32),
            2 | 3 => Patience::Quiet((mixed / 8 % 4).wrapping_add(1)),
            _ => Patience::Endless,
        }
    }

    /// What is left of it after a poll.
    pub(crate) fn worn(self) -> Self {
        match self {
            Patience::Endless => Patience::Endless,
            Patience::Restless(left) => Patience::Restless(left.saturating_sub(1)),
            Patience::Quiet(left) => Patience::Quiet(left.saturating_sub(1)),
        }
    }

    /// Whether none is left.
    pub(crate) fn is_gone(self) -> bool {
        matches!(self, Patience::Restless(0) | Patience::Quiet(0))
    }

    /// Whether it asks for each poll.
    pub(crate) fn is_restless(self) -> bool {
        matches!(self, Patience::Restless(_))
    }
}
