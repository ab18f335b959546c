ghost use Rattle.std.specs.Prelude.{◌≡◌, ◌≤◌, is_some, IfSome};
ghost use Rattle.mea_share_model.specs.Admissions.{is_named};
ghost use Rattle.mea_share.specs.Lends.{StandsFor};

use crate::admission_entry::Core;
use crate::meaning::meaning_of;
use crate::part::SharePart;
use mea_base::Ready;
use mea_events::ShareEvent;
use mea_family::{Reply, Stop};
use mea_family_hall::{Family, FamilyHall};
use mea_share_model::wakes_are_of_the_registered;
use std::alloc::Global;
use std::marker::Model;

/// Admissions with their futures and permits as the model has them, where a type has to stand for them.
#[derive(Drop)]
pub struct ShareModel;

impl Model for ShareModel {
    ghost use Rattle.mea_share_model.specs.Admissions as model;

    ghost Value = { model.ShareHall };

    ghost coded = { model.hall_code };

    ghost view = { λ _. model.empty_hall };
}

/// Many fair admissions with the wakers that they have made ready.
pub type ShareHall = FamilyHall<ShareFamily, ShareModel>;

/// Many fair admissions with their futures and permits, each by the number of the event that made it.
///
/// Each admission is a core of its own; a future keeps its acquire. Each event costs a look-up by name, one by key, and what
/// its core costs: a logarithm of its keys where one is admitted.
pub struct ShareFamily {
    admissions: SharePart,
}

impl Model for ShareFamily {
    ghost use Rattle.mea_family.specs.Play.{Part, part_code};
    ghost use Rattle.mea_share_model.specs.Admissions.{ShareHall, hall_code};

    ghost Value = { Part ShareHall };

    ghost coded = { part_code hall_code };

    ghost view = { λ f. f.admissions };
}

// Written out: a derived one is proved anew in each crate that hands a value of this type to a generic function.
impl Drop for ShareFamily {
    fn drop(self) {
        let ShareFamily { admissions: _ } = self;
    }
}

impl ShareFamily {
    /// The core of the admission of this name, where it is still named. It takes no memory.
    pub fn fair(&self, o: u64) -> Option<&Core>
        ensures named { is_some result ≡ is_named self.now.hall o }
        ensures stands { IfSome result (λ core. StandsFor self.now.hall o core.now) }
    {
        self.admissions.fair(o)
    }
}

impl Family<ShareModel> for ShareFamily {
    ghost use Rattle.mea_share_model.specs.Admissions as model;
    ghost use Rattle.mea_share_model.specs.Meaning as meaning;
    ghost use Rattle.mea_share_model.specs.Valid.{AreValid};
    ghost use Rattle.mea_share.specs.Lends.{AreSettled};
    ghost use Rattle.mea_share.specs.Halls as halls;

    type Event = ShareEvent;

    ghost part_of = { λ p. p };

    ghost empty = { model.empty_hall };

    ghost registered = { λ h. model.registered h };

    ghost IsValid = { λ h _. AreValid h × AreSettled h };

    ghost cause_of = { λ h e. meaning.cause_of h e };

    ghost step = { λ h i e. meaning.step h i e };

    ghost TakesNoMemory = { λ e. halls.TakesNoMemory e };

    fn new(alloc: Global) -> Self {
        ShareFamily {
            admissions: SharePart::new(alloc),
        }
    }

    fn is_valid(&self) {
        self.admissions.is_valid();
    }

    fn cause(&self, event: &ShareEvent) -> Option<Stop> {
        self.admissions.cause(meaning_of(event))
    }

    fn act(
        &mut self,
        number: u64,
        event: &ShareEvent,
        ready: &mut Ready<u64>,
    ) -> Result<Reply, Stop> {
        wakes_are_of_the_registered();
        self.admissions.act(number, meaning_of(event), ready)
    }
}
