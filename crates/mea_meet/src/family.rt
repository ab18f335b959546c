ghost use Rattle.std.specs.Prelude.{◌≡◌, ◌≤◌, is_some, IfSome};
ghost use Rattle.mea_meet_model.specs.Barriers.{is_barrier};
ghost use Rattle.mea_meet_model.specs.Counts.{is_live};
ghost use Rattle.mea_meet.specs.BarrierParts.{StandsForBarrier};
ghost use Rattle.mea_meet.specs.CountLends.{is_named, StandsForLatch, StandsForGroup, StandsForShutdown};

use crate::kinds::Kinds;
use crate::meaning::meaning_of;
use mea_base::Ready;
use mea_by_name::NamedWaker;
use mea_events::MeetEvent;
use mea_family::{Reply, Stop};
use mea_family_hall::{Family, FamilyHall};
use mea_meet_core::{BarrierCore, GroupCore, LatchCore, ShutdownCore};
use mea_meet_model::{validity_is_kept, wakes_are_of_the_registered, what_is_there_lives};
use std::alloc::Global;
use std::marker::Model;

/// Meeting points of all kinds as the model has them, where a type has to stand for them.
#[derive(Drop)]
pub struct MeetModel;

impl Model for MeetModel {
    ghost use Rattle.mea_meet_model.specs.Hall as model;

    ghost Value = { model.Hall };

    ghost coded = { model.hall_code };

    ghost view = { λ _. model.empty_hall };
}

/// Many meeting points, with the wakers that they have made ready.
pub type MeetHall = FamilyHall<MeetFamily, MeetModel>;

/// Many barriers, latches, wait groups and shutdowns with the futures that wait for them, each by the number
/// of the event that made it. One number may name things of different kinds.
///
/// Each object is a core of its own; a future keeps its wait. Its waker carries the future's name, so the core's set
/// tells who waits. Each event costs a few look-ups by name and the wakers that it makes ready.
pub struct MeetFamily {
    kinds: Kinds,
    // The least number that the next event may have, which may be 2^64.
    next: u128,
}

impl Model for MeetFamily {
    ghost use Rattle.mea_family.specs.Play.{Part, part_code};
    ghost use Rattle.mea_meet_model.specs.Hall as model;

    ghost Value = { Part model.Hall };

    ghost coded = { part_code model.hall_code };

    ghost use Rattle.mea_meet_model.specs.Valid.{IsValid};
    ghost use Rattle.mea_meet.specs.Halls.{hall_of, AreBelow};

    ghost view = { λ a. record { hall = hall_of a.kinds.barriers a.kinds.latches a.kinds.groups a.kinds.shutdowns; next = a.next } };

    ghost invariant = { λ a. record {
      below : AreBelow a.kinds.barriers a.kinds.latches a.kinds.groups a.kinds.shutdowns a.next;
      valid : IsValid (hall_of a.kinds.barriers a.kinds.latches a.kinds.groups a.kinds.shutdowns) a.next;
    } };
}

// Written out: a derived one is proved anew in each crate that hands a value of this type to a generic function.
impl Drop for MeetFamily {
    fn drop(self) {
        let MeetFamily { kinds: _, next: _ } = self;
    }
}

impl MeetFamily {
    /// The core of the barrier of this name, where it was not dropped. It takes no memory.
    pub fn barrier(&self, name: u64) -> Option<&BarrierCore<NamedWaker>>
        ensures lives { is_some result ≡ is_barrier self.now.hall.barriers name }
        ensures stands { IfSome result (λ core. StandsForBarrier self.now.hall.barriers name core.now) }
    {
        self.kinds.barriers.core(name)
    }

    /// The core of the latch of this name, where it was not dropped. It takes no memory.
    pub fn latch(&self, name: u64) -> Option<&LatchCore<NamedWaker>>
        ensures lives { is_some result ≡ is_named self.now.hall.latches name }
        ensures stands { IfSome result (λ core. StandsForLatch self.now.hall.latches name core.now) }
    {
        if self.kinds.latches.is_holder(name) {
            self.kinds.latches.core(name)
        } else {
            None
        }
    }

    /// The core of the wait group of this name, while a handle or a future of it lives. It takes no
    /// memory.
    pub fn group(&self, name: u64) -> Option<&GroupCore<NamedWaker>>
        ensures lives { is_some result ≡ is_live self.now.hall.groups name }
        ensures stands { IfSome result (λ core. StandsForGroup self.now.hall.groups name core.now) }
    {
        what_is_there_lives();
        self.kinds.groups.core(name)
    }

    /// The core of the shutdown of this name, while a sender, receiver, watch or future of it lives. It
    /// takes no memory.
    pub fn shutdown(&self, name: u64) -> Option<&ShutdownCore<NamedWaker>>
        ensures lives { is_some result ≡ is_live self.now.hall.shutdowns name }
        ensures stands { IfSome result (λ core. StandsForShutdown self.now.hall.shutdowns name core.now) }
    {
        what_is_there_lives();
        self.kinds.shutdowns.core(name)
    }
}

impl Family<MeetModel> for MeetFamily {
    ghost use Rattle.mea_meet_model.specs.Hall as model;
    ghost use Rattle.mea_meet_model.specs.Cause as causes;
    ghost use Rattle.mea_meet_model.specs.Step as steps;
    ghost use Rattle.mea_meet_model.specs.Valid as valid;
    ghost use Rattle.mea_meet.specs.Halls as halls;

    type Event = MeetEvent;

    ghost part_of = { λ p. p };

    ghost empty = { model.empty_hall };

    ghost registered = { λ h. model.registered h };

    ghost IsValid = { λ h n. valid.IsValid h n };

    ghost cause_of = { λ h e. causes.cause_of h e };

    ghost step = { λ h i e. steps.step h i e };

    ghost TakesNoMemory = { λ e. halls.TakesNoMemory e };

    fn new(alloc: Global) -> Self {
        validity_is_kept();
        MeetFamily {
            kinds: Kinds::new(alloc),
            next: 0,
        }
    }

    fn is_valid(&self) {
        let _next = self.next;
    }

    fn cause(&self, event: &MeetEvent) -> Option<Stop> {
        self.kinds.cause(meaning_of(event))
    }

    fn act(
        &mut self,
        number: u64,
        event: &MeetEvent,
        ready: &mut Ready<u64>,
    ) -> Result<Reply, Stop> {
        validity_is_kept();
        wakes_are_of_the_registered();
        let reply = self.kinds.act(number, meaning_of(event), ready)?;
        self.next = number as u128 + 1;
        Ok(reply)
    }
}
