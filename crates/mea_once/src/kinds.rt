ghost use Rattle.std.specs.Prelude.{ℕ, ◌≡◌, ◌≤◌};
ghost use Rattle.mea_once_model.specs.OnceHall.{empty_hall, registered};
ghost use Rattle.mea_once_model.specs.Meaning.{cause_by};
ghost use Rattle.mea_once_model.specs.Valid.{IsValid};
ghost use Rattle.mea_once.specs.Actions.{meant, FitsMeaning};
ghost use Rattle.mea_once.specs.Halls.{parts, hall_of, AreBelow};
ghost use Rattle.mea_once.specs.Acts.{ActsBy};

use crate::cell_part::CellPart;
use crate::groups::NamedGroup;
use crate::key_part::KeyPart;
use crate::maps::NamedMap;
use crate::meaning::Meaning;
use mea_base::Ready;
use mea_by_name::NamedWaker;
use mea_family::{Reply, Stop};
use mea_once_core::{CellCore, OnceCore};
use std::alloc::Global;

/// The calls that run once, the cells, the maps and the groups. An event on one kind leaves the others as they are.
#[derive(Drop)]
pub struct Kinds {
    pub onces: CellPart<OnceCore<NamedWaker>>,
    pub cells: CellPart<CellCore<u64, NamedWaker>>,
    pub maps: KeyPart<NamedMap>,
    pub groups: KeyPart<NamedGroup>,
}

impl Kinds {
    /// Nothing of any kind. It takes no memory.
    pub fn new(alloc: Global) -> Self
        ensures hall { hall_of (parts result.onces result.cells result.maps result.groups) ≡ empty_hall }
        ensures below { AreBelow (parts result.onces result.cells result.maps result.groups) 0 }
    {
        Kinds {
            onces: CellPart::new(alloc),
            cells: CellPart::new(alloc),
            maps: KeyPart::new(alloc),
            groups: KeyPart::new(alloc),
        }
    }

    /// What holds of the things of all kinds, where n is above the number of each event. It does nothing.
    pub fn are_valid(&self)
        ensures { (n : ℕ) → AreBelow (parts self.now.onces self.now.cells self.now.maps self.now.groups) n → IsValid (hall_of (parts self.now.onces self.now.cells self.now.maps self.now.groups)) n }
    {
        self.onces.is_valid();
        self.cells.is_valid();
        self.maps.is_valid();
        self.groups.is_valid();
    }

    /// Why an event that means this would be refused; None where it would not.
    pub fn cause(&self, meaning: Meaning) -> Option<Stop>
        ensures { result ≡ cause_by (hall_of (parts self.now.onces self.now.cells self.now.maps self.now.groups)) (meant meaning) }
    {
        match meaning {
            Meaning::Onces(action) => self.onces.cause(action),
            Meaning::Cells(action) => self.cells.cause(action),
            Meaning::OnlyCells(action) => self.cells.cause_whole(action),
            Meaning::Maps(action) => self.maps.cause(action),
            Meaning::OnlyMaps(action) => self.maps.cause_value(action),
            Meaning::Groups(action) => self.groups.cause(action),
        }
    }

    /// Plays an event that means this, or finds why it is refused. On an error nothing has changed.
    pub fn act(
        &mut self,
        number: u64,
        meaning: Meaning,
        ready: &mut Ready<u64>,
    ) -> Result<Reply, Stop>
        requires fits { FitsMeaning meaning }
        requires below { AreBelow (parts self.old.onces self.old.cells self.old.maps self.old.groups) number }
        requires room { registered (hall_of (parts self.old.onces self.old.cells self.old.maps self.old.groups)) ≤ ready.old.registered }
        ensures { ActsBy (meant meaning) (parts self.old.onces self.old.cells self.old.maps self.old.groups) number result
            (parts self.new.onces self.new.cells self.new.maps self.new.groups) ready.old ready.new }
    {
        match meaning {
            Meaning::Onces(action) => self.onces.act(number, action, ready),
            Meaning::Cells(action) => self.cells.act(number, action, ready),
            Meaning::OnlyCells(action) => self.cells.act_whole(number, action, ready),
            Meaning::Maps(action) => self.maps.act(number, action, ready),
            Meaning::OnlyMaps(action) => self.maps.act_value(number, action),
            Meaning::Groups(action) => self.groups.act(number, action, ready),
        }
    }
}
