use crate::deed::Deed;
use crate::deeds::deed_of;
use crate::playing::Playing;
use crate::row::{Row, Stage};
use crate::sort::Sort;
use mea_base::NoMemory;
use mea_events::Event;
use mea_family::Answer;
use mea_text::{put_reply, put_text};
use std::alloc::Global;

/// What the pointer tells of an event, and which object it leads to.
#[derive(Drop)]
pub struct Note {
    /// The line without its newline.
    pub line: Vec<u8>,
    /// The line with its reply.
    pub told: Vec<u8>,
    /// The name of the object to which belongs what the event made or polled.
    pub home: u64,
}

/// The free permits of a semaphore from an event on.
#[derive(Clone, Copy)]
pub struct Level {
    pub semaphore: u64,
    pub event: u64,
    pub free: u64,
}

/// What a picture shows beside its marks.
#[derive(Drop)]
pub struct Notes {
    pub events: Vec<Note>,
    pub levels: Vec<Level>,
}

impl Notes {
    /// Nothing was played. It takes no memory.
    pub fn new(alloc: Global) -> Notes {
        Notes {
            events: Vec::new(alloc),
            levels: Vec::new(alloc),
        }
    }

    /// Notes an event that was played.
    pub fn add(
        &mut self,
        alloc: Global,
        number: u64,
        line: &[u8],
        event: &Event,
        answer: &Answer,
        wakes: &[u64],
    ) -> Result<(), NoMemory> {
        let mut told = Vec::new(alloc);
        put_text(&mut told, line)?;
        put_text(&mut told, b": ")?;
        put_reply(&mut told, answer, wakes)?;
        let _newline = told.pop();
        let home = self.home_of(number, deed_of(event));
        self.push(alloc, line, told, home)
    }

    /// Notes a line that was not played.
    pub fn add_last(&mut self, alloc: Global, number: u64, line: &[u8]) -> Result<(), NoMemory> {
        let mut told = Vec::new(alloc);
        put_text(&mut told, line)?;
        self.push(alloc, line, told, number)
    }

    fn push(
        &mut self,
        alloc: Global,
        line: &[u8],
        told: Vec<u8>,
        home: u64,
    ) -> Result<(), NoMemory> {
        let mut copy = Vec::new(alloc);
        put_text(&mut copy, line)?;
        self.events.push(Note {
            line: copy,
            told,
            home,
        })?;
        Ok(())
    }

    // The object that the event of this number leads to: what it makes is that, or belongs to it.
    fn home_of(&self, number: u64, deed: Deed) -> u64 {
        match deed {
            Deed::Begins(_, name) | Deed::Copies(name) => self.home(name),
            Deed::Polls(thing, _) => self.home(thing.name),
            _ => number,
        }
    }

    /// The object to which belongs what this name names.
    pub fn home(&self, name: u64) -> u64 {
        self.events
            .get(name as usize)
            .map_or(name, |note| note.home)
    }

    /// Notes the free permits of each semaphore where they have changed.
    pub fn add_levels<P: Playing>(
        &mut self,
        player: &P,
        number: u64,
        rows: &[Row],
    ) -> Result<(), NoMemory> {
        for row in rows {
            match (row.thing.sort, row.stage) {
                (Sort::Semaphore, Stage::Made) => self.add_level(player, number, row.thing.name)?,
                _ => {}
            }
        }
        Ok(())
    }

    fn add_level<P: Playing>(
        &mut self,
        player: &P,
        event: u64,
        semaphore: u64,
    ) -> Result<(), NoMemory> {
        let Some(free) = player.free_permits(semaphore) else {
            return Ok(());
        };
        let last = self
            .levels
            .iter()
            .rev()
            .find(|level| level.semaphore == semaphore)
            .map(|level| level.free);
        if last != Some(free) {
            self.levels.push(Level {
                semaphore,
                event,
                free,
            })?;
        }
        Ok(())
    }
}
