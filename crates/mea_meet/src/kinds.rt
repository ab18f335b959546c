ghost use Rattle.std.specs.Prelude.{◌≡◌, ◌≤◌};
ghost use Rattle.mea_meet_model.specs.Hall.{empty_hall, registered};
ghost use Rattle.mea_meet_model.specs.Cause.{cause_by};
ghost use Rattle.mea_meet_model.specs.Valid.{BorrowNothing};
ghost use Rattle.mea_meet.specs.Actions.{meant, FitsMeaning};
ghost use Rattle.mea_meet.specs.Halls.{hall_of, AreBelow, ActsBy};

use crate::barrier_part::BarrierPart;
use crate::count_part::CountPart;
use crate::meaning::Meaning;
use mea_base::Ready;
use mea_by_name::NamedWaker;
use mea_family::{Reply, Stop, unknown_unless};
use mea_meet_core::{GroupCore, LatchCore, ShutdownCore};
use std::alloc::Global;

/// The meeting points of each kind. An event on one kind leaves the others as they are.
#[derive(Drop)]
pub struct Kinds {
    pub barriers: BarrierPart,
    pub latches: CountPart<LatchCore<NamedWaker>>,
    pub groups: CountPart<GroupCore<NamedWaker>>,
    pub shutdowns: CountPart<ShutdownCore<NamedWaker>>,
}

impl Kinds {
    /// No meeting point. It takes no memory.
    pub fn new(alloc: Global) -> Self
        ensures hall { hall_of result.barriers result.latches result.groups result.shutdowns ≡ empty_hall }
        ensures below { AreBelow result.barriers result.latches result.groups result.shutdowns 0 }
    {
        Kinds {
            barriers: BarrierPart::new(alloc),
            latches: CountPart::new(alloc),
            groups: CountPart::new(alloc),
            shutdowns: CountPart::new(alloc),
        }
    }

    /// Why an event that means this would be refused; None where it would not. It takes no memory.
    pub fn cause(&self, meaning: Meaning) -> Option<Stop>
        ensures { result ≡ cause_by (hall_of self.now.barriers self.now.latches self.now.groups self.now.shutdowns) (meant meaning) }
    {
        match meaning {
            Meaning::Barriers(action) => self.barriers.cause(action),
            Meaning::Latches(action) => self.latches.cause(action),
            Meaning::Numbers(l) | Meaning::Tries(l) => unknown_unless(self.latches.is_holder(l)),
            Meaning::Groups(action) => self.groups.cause(action),
            Meaning::Shutdowns(action) => self.shutdowns.cause(action),
        }
    }

    /// Plays an event that means this, or finds why it is refused. On an error nothing has changed.
    pub fn act(
        &mut self,
        number: u64,
        meaning: Meaning,
        ready: &mut Ready<u64>,
    ) -> Result<Reply, Stop>
        requires fits { FitsMeaning meaning }
        requires below { AreBelow self.old.barriers self.old.latches self.old.groups self.old.shutdowns number }
        requires alone { BorrowNothing self.old.groups.hall }
        requires room { registered (hall_of self.old.barriers self.old.latches self.old.groups self.old.shutdowns) ≤ ready.old.registered }
        ensures { ActsBy (meant meaning) self.old.barriers self.old.latches self.old.groups self.old.shutdowns number result self.new.barriers self.new.latches self.new.groups self.new.shutdowns ready.old ready.new }
    {
        match meaning {
            Meaning::Barriers(action) => self.barriers.act(number, action, ready),
            Meaning::Latches(action) => self.latches.act(number, action, ready),
            Meaning::Numbers(l) => self.latches.number(number, l),
            Meaning::Tries(l) => self.latches.try_wait(number, l),
            Meaning::Groups(action) => self.groups.act(number, action, ready),
            Meaning::Shutdowns(action) => self.shutdowns.act(number, action, ready),
        }
    }
}
