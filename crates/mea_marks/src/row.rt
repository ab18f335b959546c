ghost use Rattle.std.specs.Prelude.{◌≡◌};
ghost use Rattle.mea_marks.specs.Rows.{waits_with, is_of, staged};

use crate::thing::{Thing, same};

/// How far a thing has come.
#[derive(Clone, Copy)]
pub enum Stage {
    /// It was made.
    Made,
    /// Its last poll was answered `pending`, with this waker.
    Waits(u64),
    /// Its last poll was answered otherwise, and it lives on.
    Rests,
    /// It ended by the event of this number.
    Ended(u64),
}

/// A row of a picture.
#[derive(Clone, Copy)]
pub struct Row {
    pub thing: Thing,
    pub stage: Stage,
}

/// Whether what has this row waits with this waker.
pub fn waits_with(row: Row, waker: u64) -> bool
    ensures { result ≡ waits_with waker row }
{
    match row.stage {
        Stage::Waits(kept) => kept == waker,
        _ => false,
    }
}

/// Whether a row is of this thing.
pub fn is_of(thing: Thing, row: Row) -> bool
    ensures { result ≡ is_of thing row }
{
    same(row.thing, thing)
}

/// The row, at this stage if it is of this thing.
pub fn staged(thing: Thing, stage: Stage, row: Row) -> Row
    ensures { result ≡ staged thing stage row }
{
    if is_of(thing, row) {
        Row { thing, stage }
    } else {
        row
    }
}
