ghost use Rattle.mea_shot.specs.Steps.{IsSpent};

use crate::message::Content;
use crate::view::View;
use atomic_table::Seat;

// That an end owes the channel its last step. Every end has one, and `done` alone takes it, which asks for a seat whose
// end is over: so no call that spends an end can leave that step out.
pub(crate) struct Duty(());

impl Duty {
    pub(crate) fn new() -> Duty {
        Duty(())
    }

    // The step was made.
    pub(crate) fn done<T, W>(self, seat: &Seat<Option<Content<T, W>>, View<W>>)
        requires { IsSpent seat.now.me.0 }
    {
        let Duty(()) = self;
    }
}
