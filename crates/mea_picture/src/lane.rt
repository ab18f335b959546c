use crate::ink::Ink;
use crate::layout::Layout;
use mea_base::NoMemory;
use mea_marks::{Mark, Thing};
use std::alloc::Global;

/// How a row goes on from an event.
#[derive(Clone, Copy)]
pub struct Lane {
    pub since: u64,
    /// The line that it has, if it waits or was woken.
    pub ink: Option<Ink>,
}

/// How each row goes on.
#[derive(Drop)]
pub struct Lanes {
    lanes: Vec<Lane>,
}

impl Lanes {
    /// No row waits.
    pub fn new(alloc: Global, rows: usize) -> Result<Lanes, NoMemory> {
        let none = Lane {
            since: 0,
            ink: None,
        };
        match vec![in alloc; none; rows] {
            Ok(lanes) => Ok(Lanes { lanes }),
            Err(_) => Err(NoMemory),
        }
    }

    /// How the rows go on after all marks.
    pub fn last(alloc: Global, layout: &Layout, marks: &[Mark]) -> Result<Lanes, NoMemory> {
        let mut lanes = Lanes::new(alloc, layout.past.board.rows.len())?;
        for mark in marks {
            let _before = lanes.change(layout, mark);
        }
        Ok(lanes)
    }

    /// How the row of a thing goes on.
    pub fn of(&self, layout: &Layout, thing: Thing) -> Option<Lane> {
        self.lanes.get(layout.index_of(thing)?).copied()
    }

    /// Goes on after a mark, and answers how the row went on before it.
    pub fn change(&mut self, layout: &Layout, mark: &Mark) -> Option<Lane> {
        let (thing, lane) = lane_after(mark)?;
        let own = self.lanes.get_mut(layout.index_of(thing)?)?;
        let before = *own;
        *own = lane;
        Some(before)
    }
}

// Whose row goes on otherwise after a mark, and how.
fn lane_after(mark: &Mark) -> Option<(Thing, Lane)> {
    match *mark {
        Mark::Pending(since, thing) => Some((thing, lane_of(since, Some(Ink::Waiting)))),
        Mark::Arrow(since, _, thing) => Some((thing, lane_of(since, Some(Ink::Woken)))),
        Mark::Ready(since, thing) | Mark::Refused(since, thing) | Mark::Ended(since, thing) => {
            Some((thing, lane_of(since, None)))
        }
        _ => None,
    }
}

fn lane_of(since: u64, ink: Option<Ink>) -> Lane {
    Lane { since, ink }
}
