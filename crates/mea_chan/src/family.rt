ghost use Rattle.std.specs.Prelude.{◌≡◌, ◌≤◌, is_some, IfSome, Some};
ghost use Rattle.std.specs.FinMap as map;
ghost use Rattle.std.specs.Option.{option_map};
ghost use Rattle.mea_chan_model.specs.Mailboxes.{is_channel};
ghost use Rattle.mea_chan_model.specs.Broadcasts.{is_broadcast};
ghost use Rattle.mea_chan_broadcast.specs.BroadcastLends.{StandsForBroadcast};
ghost use Rattle.mea_chan_model.specs.Boxes.{is_box};
ghost use Rattle.mea_chan.specs.Cores.{of_oneshot};
ghost use Rattle.mea_chan.specs.Lends.{StandsFor};
ghost use Rattle.mea_chan.specs.BoundedLends.{StandsForBounded};

use crate::kinds::Kinds;
use crate::meaning::meaning_of;
use mea_base::Ready;
use mea_broadcast_core::BroadcastCore;
use mea_by_name::NamedWaker;
use mea_chan_core::{BoundedCore, BoxCore, OneshotCore, OptionBoxCore, UnboundedCore};
use mea_chan_model::wakes_are_of_the_registered;
use mea_events::ChanEvent;
use mea_family::{Reply, Stop};
use mea_family_hall::{Family, FamilyHall};
use std::alloc::Global;
use std::marker::Model;

/// Channels and boxes as the model has them, where a type has to stand for them.
#[derive(Drop)]
pub struct ChanModel;

impl Model for ChanModel {
    ghost use Rattle.mea_chan_model.specs.ChanHall as model;

    ghost Value = { model.ChanHall };

    ghost coded = { model.hall_code };

    ghost view = { λ _. model.empty_hall };
}

/// Many channels and boxes, with the wakers that they have made ready.
pub type ChanHall = FamilyHall<ChanFamily, ChanModel>;

/// Many channels with their senders and receivers, and many boxes, each by the number of the event that
/// made it.
///
/// Each channel and each box is a core of its own. Each event costs a few look-ups by name and the wakers that it makes
/// ready.
pub struct ChanFamily {
    kinds: Kinds,
    // The least number that the next event may have, which may be 2^64.
    next: u128,
}

impl Model for ChanFamily {
    ghost use Rattle.mea_family.specs.Play.{Part, part_code};
    ghost use Rattle.mea_chan_model.specs.ChanHall as model;

    ghost Value = { Part model.ChanHall };

    ghost coded = { part_code model.hall_code };

    ghost use Rattle.mea_chan.specs.Halls.{parts, hall_of, AreBelow};

    ghost view = { λ a. record { hall = hall_of (parts a.kinds); next = a.next } };

    ghost invariant = { λ a. AreBelow (parts a.kinds) a.next };
}

// Written out: a derived one is proved anew in each crate that hands a value of this type to a generic function.
impl Drop for ChanFamily {
    fn drop(self) {
        let ChanFamily { kinds: _, next: _ } = self;
    }
}

impl ChanFamily {
    /// The core of the bounded channel of this name, while a sender or the receiver lives; its wakers have the names of
    /// the sends and receivers. It takes no memory.
    pub fn bounded(&self, name: u64) -> Option<&BoundedCore<u64, NamedWaker>>
        ensures there { is_some result ≡ is_channel self.now.hall.bounded.mail name }
        ensures stands { IfSome result (λ core. StandsForBounded self.now.hall.bounded name core.now) }
    {
        self.kinds.bounded.core(name)
    }

    /// The core of the broadcast channel of this name, while a sender or a receiver lives; its wakers have the names of the
    /// futures. It takes no memory.
    pub fn broadcast(&self, name: u64) -> Option<&BroadcastCore<u64, NamedWaker>>
        ensures there { is_some result ≡ is_broadcast self.now.hall.broadcasts name }
        ensures stands { IfSome result (λ core. StandsForBroadcast self.now.hall.broadcasts name core.now) }
    {
        self.kinds.broadcasts.core(name)
    }

    /// The core of the unbounded channel of this name, while a sender or the receiver lives. It takes no memory.
    pub fn unbounded(&self, name: u64) -> Option<&UnboundedCore<u64, u64>>
        ensures there { is_some result ≡ is_channel self.now.hall.unbounded name }
        ensures stands { IfSome result (λ core. StandsFor self.now.hall.unbounded name core.now) }
    {
        self.kinds.unbounded.core(name)
    }

    /// The core of the oneshot of this name, while the sender, the receiver or its future lives. It takes no memory.
    pub fn oneshot(&self, name: u64) -> Option<&OneshotCore<u64, u64>>
        ensures there { is_some result ≡ is_channel self.now.hall.oneshots name }
        ensures stands { IfSome result (λ core. StandsFor self.now.hall.oneshots name (of_oneshot core.now)) }
    {
        self.kinds.oneshots.core(name)
    }

    /// The core of the box of this name. It takes no memory.
    pub fn boxed(&self, name: u64) -> Option<&BoxCore<u64>>
        ensures there { is_some result ≡ is_box self.now.hall.boxes name }
        ensures stands { IfSome result (λ core. map.get self.now.hall.boxes name ≡ Some (Some core.now.content.value)) }
    {
        self.kinds.boxes.core(name)
    }

    /// The core of the option box of this name. It takes no memory.
    pub fn option_box(&self, name: u64) -> Option<&OptionBoxCore<u64>>
        ensures there { is_some result ≡ is_box self.now.hall.option_boxes name }
        ensures stands { IfSome result (λ core. map.get self.now.hall.option_boxes name ≡ Some (option_map (λ content. content.value) core.now.content)) }
    {
        self.kinds.option_boxes.core(name)
    }
}

impl Family<ChanModel> for ChanFamily {
    ghost use Rattle.mea_chan_model.specs.ChanHall as model;
    ghost use Rattle.mea_chan_model.specs.Meaning as meaning;
    ghost use Rattle.mea_chan_model.specs.Valid.{AllValid};
    ghost use Rattle.mea_chan.specs.Halls as halls;

    type Event = ChanEvent;

    ghost part_of = { λ p. p };

    ghost empty = { model.empty_hall };

    ghost registered = { λ h. model.registered h };

    ghost IsValid = { λ h _. AllValid h };

    ghost cause_of = { λ h e. meaning.cause_of h e };

    ghost step = { λ h i e. meaning.step h i e };

    ghost TakesNoMemory = { λ e. halls.TakesNoMemory e };

    fn new(alloc: Global) -> Self {
        ChanFamily {
            kinds: Kinds::new(alloc),
            next: 0,
        }
    }

    fn is_valid(&self) {
        self.kinds.unbounded.are_valid();
        self.kinds.oneshots.are_valid();
        self.kinds.bounded.are_valid();
    }

    fn cause(&self, event: &ChanEvent) -> Option<Stop> {
        self.kinds.cause(meaning_of(event))
    }

    fn act(
        &mut self,
        number: u64,
        event: &ChanEvent,
        ready: &mut Ready<u64>,
    ) -> Result<Reply, Stop> {
        wakes_are_of_the_registered();
        let answer = self.kinds.act(number, meaning_of(event), ready)?;
        self.next = number as u128 + 1;
        Ok(answer)
    }
}
