use mea_base::NoMemory;
use mea_marks::{Ending, Past, Row, Sort, Thing, same};
use std::alloc::Global;

/// Where the names of rows begin.
pub const NAMES: u64 = 12;
/// Where the first column begins.
const LEFT: u64 = 250;
/// How wide a column is.
const COLUMN: u64 = 26;
/// Where the lines of columns begin.
pub const HEAD: u64 = 44;
/// Where the first row begins.
pub const TOP: u64 = 222;
/// How high a row is.
pub const ROW: u64 = 22;
/// How wide the legend is, and the words of a cause.
const LEGEND: u64 = 920;

const CAUSE: u64 = 190;

/// Where the rows and columns of a picture stand.
#[derive(Drop)]
pub struct Layout<'a> {
    pub past: &'a Past,
    // The place of each row, from above.
    places: Vec<u64>,
}

impl<'a> Layout<'a> {
    /// The rows of one object stand together, below it.
    pub fn new(alloc: Global, past: &'a Past) -> Result<Layout<'a>, NoMemory> {
        let rows = past.board.rows.as_slice();
        let mut places = Vec::new(alloc);
        for _ in rows {
            places.push(u64::MAX)?;
        }
        let mut layout = Layout { past, places };
        let mut next = 0;
        for (index, row) in rows.iter().enumerate() {
            if is_object(row.thing.sort) {
                layout.set(index, next);
                next = layout.place_rows_of(row.thing.name, next.saturating_add(1));
            }
        }
        layout.place_others(next);
        Ok(layout)
    }

    // Places the rows of what waits at an object, and answers the next place.
    fn place_rows_of(&mut self, object: u64, mut next: u64) -> u64 {
        for (index, row) in self.past.board.rows.iter().enumerate() {
            if !is_object(row.thing.sort) && self.past.notes.home(row.thing.name) == object {
                self.set(index, next);
                next = next.saturating_add(1);
            }
        }
        next
    }

    // Places the rows that have no place.
    fn place_others(&mut self, mut next: u64) {
        for place in self.places.iter_mut() {
            if *place == u64::MAX {
                *place = next;
                next = next.saturating_add(1);
            }
        }
    }

    fn set(&mut self, index: usize, place: u64) {
        if let Some(own) = self.places.get_mut(index) {
            *own = place;
        }
    }

    /// The number of the row of a thing.
    pub fn index_of(&self, thing: Thing) -> Option<usize> {
        self.past
            .board
            .rows
            .iter()
            .position(|row| same(row.thing, thing))
    }

    /// The height of the row of a thing.
    pub fn y_of(&self, thing: Thing) -> u64 {
        match self.index_of(thing) {
            Some(index) => y_at(self.places.get(index).copied().unwrap_or(0)),
            None => TOP,
        }
    }

    /// The object to which a thing belongs.
    pub fn home_of(&self, thing: Thing) -> Option<Thing> {
        let home = self.past.notes.home(thing.name);
        self.past
            .board
            .rows
            .iter()
            .find(|row| is_home(row, thing, home))
            .map(|row| row.thing)
    }

    /// How many columns there are: one for each event, and one for the line where it stops.
    pub fn columns(&self) -> u64 {
        match self.past.ending {
            Ending::Whole | Ending::TooGreat => self.past.lines,
            _ => self.past.lines.saturating_add(1),
        }
    }

    /// Where the last column ends.
    pub fn right(&self) -> u64 {
        x_of(self.columns()).saturating_sub(COLUMN / 2)
    }

    /// How wide a picture is.
    pub fn width(&self) -> u64 {
        let words = match self.past.ending {
            Ending::Whole | Ending::TooGreat => 0,
            _ => CAUSE,
        };
        self.right().saturating_add(20 + words).max(LEGEND)
    }

    /// How high it is.
    pub fn height(&self) -> u64 {
        y_at(self.past.board.rows.len() as u64).saturating_add(12)
    }
}

/// Where a column stands.
pub fn x_of(column: u64) -> u64 {
    column
        .saturating_mul(COLUMN)
        .saturating_add(LEFT + COLUMN / 2)
}

fn y_at(place: u64) -> u64 {
    place.saturating_mul(ROW).saturating_add(TOP + ROW / 2)
}

// Whether a row is that of the object to which a thing belongs.
fn is_home(row: &Row, thing: Thing, home: u64) -> bool {
    is_object(row.thing.sort) && !is_object(thing.sort) && row.thing.name == home
}

/// Whether a row is of an object, and not of what waits at one.
pub fn is_object(sort: Sort) -> bool {
    sort.code() < Sort::Acquire.code()
}
