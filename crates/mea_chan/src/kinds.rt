ghost use Rattle.std.specs.Prelude.{◌≡◌, ◌≤◌};
ghost use Rattle.mea_chan_model.specs.ChanHall.{empty_hall, registered};
ghost use Rattle.mea_chan_model.specs.Meaning.{cause_by};
ghost use Rattle.mea_chan.specs.Actions.{meant, FitsMeaning};
ghost use Rattle.mea_chan.specs.Halls.{parts, hall_of, AreBelow, ActsBy};

use crate::bounded_part::BoundedPart;
use crate::box_part::BoxPart;
use crate::mailbox_part::MailboxPart;
use crate::meaning::Meaning;
use mea_base::Ready;
use mea_chan_broadcast::BroadcastPart;
use mea_chan_core::{BoxCore, OneshotCore, OptionBoxCore, UnboundedCore};
use mea_family::{Reply, Stop};
use std::alloc::Global;

/// The channels and boxes of each kind. An event on one kind leaves the others as they are.
#[derive(Drop)]
pub struct Kinds {
    pub unbounded: MailboxPart<UnboundedCore<u64, u64>>,
    pub oneshots: MailboxPart<OneshotCore<u64, u64>>,
    pub bounded: BoundedPart,
    pub broadcasts: BroadcastPart,
    pub boxes: BoxPart<BoxCore<u64>>,
    pub option_boxes: BoxPart<OptionBoxCore<u64>>,
}

impl Kinds {
    /// Nothing. It takes no memory.
    pub fn new(alloc: Global) -> Self
        ensures hall { hall_of (parts result) ≡ empty_hall }
        ensures below { AreBelow (parts result) 0 }
    {
        Kinds {
            unbounded: MailboxPart::new(alloc),
            oneshots: MailboxPart::new(alloc),
            bounded: BoundedPart::new(alloc),
            broadcasts: BroadcastPart::new(alloc),
            boxes: BoxPart::new(alloc),
            option_boxes: BoxPart::new(alloc),
        }
    }

    /// Why an event that means this would be refused; None where it would not. It takes no memory.
    pub fn cause(&self, meaning: Meaning) -> Option<Stop>
        ensures { result ≡ cause_by (hall_of (parts self.now)) (meant meaning) }
    {
        match meaning {
            Meaning::Bounded(action) => self.bounded.cause(action),
            Meaning::Broadcasts(action) => self.broadcasts.cause(action),
            Meaning::Unbounded(action) => self.unbounded.cause_unbounded(action),
            Meaning::Oneshots(action) => self.oneshots.cause_oneshot(action),
            Meaning::Boxes(action) => self.boxes.cause(action),
            Meaning::OptionBoxes(action) => self.option_boxes.cause(action),
        }
    }

    /// Plays an event that means this, or finds why it is refused. On an error nothing has changed.
    pub fn act(
        &mut self,
        number: u64,
        meaning: Meaning,
        ready: &mut Ready<u64>,
    ) -> Result<Reply, Stop>
        requires fits { FitsMeaning meaning }
        requires below { AreBelow (parts self.old) number }
        requires room { registered (hall_of (parts self.old)) ≤ ready.old.registered }
        ensures { ActsBy (meant meaning) (parts self.old) number result (parts self.new) ready.old ready.new }
    {
        match meaning {
            Meaning::Bounded(action) => self.bounded.act(number, action, ready),
            Meaning::Broadcasts(action) => self.broadcasts.act(number, action, ready),
            Meaning::Unbounded(action) => self.unbounded.act_unbounded(number, action, ready),
            Meaning::Oneshots(action) => self.oneshots.act_oneshot(number, action, ready),
            Meaning::Boxes(action) => self.boxes.act(number, action),
            Meaning::OptionBoxes(action) => self.option_boxes.act(number, action),
        }
    }
}
