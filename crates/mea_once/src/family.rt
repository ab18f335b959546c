ghost use Rattle.std.specs.Prelude.{◌≡◌, ◌≤◌, is_some, IfSome};
ghost use Rattle.mea_once_model.specs.Cells.{is_cell};
ghost use Rattle.mea_once_model.specs.Tables.{is_table};
ghost use Rattle.mea_once.specs.Cores.{once_seen, cell_seen};
ghost use Rattle.mea_once.specs.Lends.{StandsFor, StandsForTable};

use crate::groups::NamedGroup;
use crate::kinds::Kinds;
use crate::maps::NamedMap;
use crate::meaning::meaning_of;
use mea_base::Ready;
use mea_by_name::NamedWaker;
use mea_events::OnceEvent;
use mea_family::{Reply, Stop};
use mea_family_hall::{Family, FamilyHall};
use mea_once_core::{CellCore, OnceCore};
use mea_once_model::wakes_are_of_the_registered;
use std::alloc::Global;
use std::marker::Model;

/// Calls that run once, cells, maps and groups as the model has them, where a type has to stand for them.
#[derive(Drop)]
pub struct OnceModel;

impl Model for OnceModel {
    ghost use Rattle.mea_once_model.specs.OnceHall as model;

    ghost Value = { model.OnceHall };

    ghost coded = { model.hall_code };

    ghost view = { λ _. model.empty_hall };
}

/// Many calls that run once, cells, maps and groups, with the wakers that they have made ready.
pub type OnceHall = FamilyHall<OnceFamily, OnceModel>;

/// Many calls that run once, cells that are filled once, and maps and groups that compute a value once for each key, with
/// their futures, each by the number of the event that made it.
///
/// Each is a core of its own. The waker of who waits carries its future's name, so the core's queue tells who waits for the
/// turn; the waker that an unsettled initialiser keeps stands with its cell. Each event costs a few look-ups by name
/// and the wakers that it makes ready.
pub struct OnceFamily {
    kinds: Kinds,
    // The least number that the next event may have, which may be 2^64.
    next: u128,
}

impl Model for OnceFamily {
    ghost use Rattle.mea_family.specs.Play.{Part, part_code};
    ghost use Rattle.mea_once_model.specs.OnceHall as model;

    ghost Value = { Part model.OnceHall };

    ghost coded = { part_code model.hall_code };

    ghost use Rattle.mea_once.specs.Halls.{parts, hall_of, AreBelow};

    ghost view = { λ a. record { hall = hall_of (parts a.kinds.onces a.kinds.cells a.kinds.maps a.kinds.groups); next = a.next } };

    ghost invariant = { λ a. AreBelow (parts a.kinds.onces a.kinds.cells a.kinds.maps a.kinds.groups) a.next };
}

// Written out: a derived one is proved anew in each crate that hands a value of this type to a generic function.
impl Drop for OnceFamily {
    fn drop(self) {
        let OnceFamily { kinds: _, next: _ } = self;
    }
}

impl OnceFamily {
    /// The core of the call that runs once of this name, where there is one. It takes no memory.
    pub fn once(&self, name: u64) -> Option<&OnceCore<NamedWaker>>
        ensures there { is_some result ≡ is_cell self.now.hall.onces name }
        ensures stands { IfSome result (λ core. StandsFor self.now.hall.onces name (once_seen core.now)) }
    {
        self.kinds.onces.core(name)
    }

    /// The core of the cell of this name, where there is one. It takes no memory.
    pub fn cell(&self, name: u64) -> Option<&CellCore<u64, NamedWaker>>
        ensures there { is_some result ≡ is_cell self.now.hall.cells name }
        ensures stands { IfSome result (λ core. StandsFor self.now.hall.cells name (cell_seen core.now)) }
    {
        self.kinds.cells.core(name)
    }

    /// The core of the map of this name, where there is one. It takes no memory.
    pub fn map(&self, name: u64) -> Option<&NamedMap>
        ensures there { is_some result ≡ is_table self.now.hall.maps name }
        ensures stands { IfSome result (λ core. StandsForTable self.now.hall.maps name core.now) }
    {
        self.kinds.maps.core(name)
    }

    /// The core of the group of this name, where there is one. It takes no memory.
    pub fn flight(&self, name: u64) -> Option<&NamedGroup>
        ensures there { is_some result ≡ is_table self.now.hall.groups name }
        ensures stands { IfSome result (λ core. StandsForTable self.now.hall.groups name core.now) }
    {
        self.kinds.groups.core(name)
    }
}

impl Family<OnceModel> for OnceFamily {
    ghost use Rattle.mea_once_model.specs.OnceHall as model;
    ghost use Rattle.mea_once_model.specs.Meaning as meaning;
    ghost use Rattle.mea_once_model.specs.Valid as valid;
    ghost use Rattle.mea_once.specs.Halls as halls;

    type Event = OnceEvent;

    ghost part_of = { λ p. p };

    ghost empty = { model.empty_hall };

    ghost registered = { λ h. model.registered h };

    ghost IsValid = { λ h n. valid.IsValid h n };

    ghost cause_of = { λ h e. meaning.cause_of h e };

    ghost step = { λ h i e. meaning.step h i e };

    ghost TakesNoMemory = { λ e. halls.TakesNoMemory e };

    fn new(alloc: Global) -> Self {
        OnceFamily {
            kinds: Kinds::new(alloc),
            next: 0,
        }
    }

    fn is_valid(&self) {
        self.kinds.are_valid();
    }

    fn cause(&self, event: &OnceEvent) -> Option<Stop> {
        self.kinds.cause(meaning_of(event))
    }

    fn act(
        &mut self,
        number: u64,
        event: &OnceEvent,
        ready: &mut Ready<u64>,
    ) -> Result<Reply, Stop> {
        wakes_are_of_the_registered();
        let answer = self.kinds.act(number, meaning_of(event), ready)?;
        self.next = number as u128 + 1;
        Ok(answer)
    }
}
