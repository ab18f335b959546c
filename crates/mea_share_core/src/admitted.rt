ghost use Rattle.std.specs.Prelude.{◌≡◌, ◌+◌, ◌-◌, ◌≤◌, OnOk, OnErr, IfOk, IsOk, IsSome, Some, None, is_some};
ghost use Rattle.std.specs.FinMap as map;
ghost use Rattle.std.specs.HashMap.{spare};
ghost use Rattle.mea_share_core.specs.Share.{kept, lone};

use mea_base::NoMemory;
use std::alloc::Global;
use std::collections::HashMap;
use std::marker::Model;
use std::mem;

/// The numbers of those of a key that were admitted, with room for each that waits.
#[derive(Drop)]
pub struct Admitted {
    numbers: NumberSet,
    alloc: Global,
}

/// A set of numbers. One alone stands in place, so that a key of which one waits at a time has no table.
#[derive(Drop)]
pub enum NumberSet {
    Empty,
    One(u64),
    Many(Box<HashMap<u64, ()>>),
}

impl Model for Admitted {
    ghost use Rattle.mea_share_core.specs.Share.{Roomy, roomy_code, kept};
    ghost use Rattle.mea_share_core.specs.Admitted.{numbers_of, spare_of};

    ghost Value = { Roomy };

    ghost coded = { roomy_code };

    ghost view = { λ a. record { members = kept (numbers_of a.numbers); spare = spare_of a.numbers } };
}

impl Admitted {
    // None. It takes no memory.
    pub(crate) fn new(alloc: Global) -> Self
        ensures is { result.members ≡ map.empty }
        ensures none { map.len result.members ≡ 0 }
    {
        Admitted {
            numbers: NumberSet::Empty,
            alloc,
        }
    }

    // Makes room for so many more.
    pub(crate) fn reserve(&mut self, more: usize) -> Result<(), NoMemory>
        ensures room { OnOk result (more ≤ self.new.spare) }
        ensures grows { self.old.spare ≤ self.new.spare }
        ensures members { self.new.members ≡ self.old.members }
    {
        let table = match &mut self.numbers {
            NumberSet::Many(table) => return Ok(table.reserve(more)?),
            NumberSet::Empty if more <= 1 => return Ok(()),
            NumberSet::Empty => table_of(self.alloc, None, more)?,
            NumberSet::One(number) => table_of(self.alloc, Some(*number), more)?,
        };
        self.numbers = NumberSet::Many(table);
        Ok(())
    }

    // Whether a number was admitted.
    pub(crate) fn has(&self, number: u64) -> bool
        ensures { result ≡ is_some (map.get self.now.members number) }
    {
        match &self.numbers {
            NumberSet::Empty => false,
            NumberSet::One(one) => number == *one,
            NumberSet::Many(table) => table.contains_key(&number),
        }
    }

    // A number was admitted. It takes no memory.
    pub(crate) fn insert(&mut self, number: u64)
        requires { 1 ≤ self.old.spare }
        ensures members { self.new.members ≡ map.insert self.old.members number tt }
        ensures more { map.get self.old.members number ≡ None → map.len self.new.members ≡ map.len self.old.members + 1 }
        ensures spare { self.old.spare ≤ self.new.spare + 1 }
    {
        match mem::replace(&mut self.numbers, NumberSet::One(number)) {
            NumberSet::Empty => {}
            NumberSet::One(_) => unreachable!(),
            NumberSet::Many(mut table) => {
                let inserted = table.insert(number, ());
                self.numbers = NumberSet::Many(table);
                match inserted {
                    Ok(_) => {}
                    Err(_) => unreachable!(),
                }
            }
        }
    }

    // A number that was admitted is gone. It takes no memory.
    pub(crate) fn remove(&mut self, number: u64)
        requires { IsSome (map.get self.old.members number) }
        ensures members { self.new.members ≡ map.remove self.old.members number }
        ensures fewer { map.len self.new.members + 1 ≡ map.len self.old.members }
        ensures spare { self.old.spare ≤ self.new.spare }
    {
        match mem::replace(&mut self.numbers, NumberSet::Empty) {
            NumberSet::Empty => {}
            NumberSet::One(_) => {}
            NumberSet::Many(mut table) => {
                let _ = table.remove(&number);
                self.numbers = NumberSet::Many(table);
            }
        }
    }
}

// A table of a number, if there is one, with room for so many more.
fn table_of(
    alloc: Global,
    number: Option<u64>,
    more: usize,
) -> Result<Box<HashMap<u64, ()>>, NoMemory>
    ensures members { IfOk result (λ table. kept table.value.entries ≡ kept (lone number)) }
    ensures room { IfOk result (λ table. more ≤ spare table.value) }
{
    let mut table = HashMap::new(alloc);
    match number {
        Some(number) => {
            table.insert(number, ())?;
        }
        None => {}
    }
    table.reserve(more)?;
    Ok(Box::new(alloc, table)?)
}
