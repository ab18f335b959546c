use mea_base::Wake;

/// Who is woken at a place in a set of wakers: the task that waits there, or nobody, since its wait has ended.
#[derive(Debug, PartialEq, Eq, Drop)]
pub enum Seat<W> {
    /// This waker waits.
    Taken(W),
    /// Nobody waits.
    Vacant,
}

impl<W: Drop> Seat<W> {
    ghost use Rattle.std.specs.Prelude.{◌≡◌};
    ghost use Rattle.mea_meet_seats.specs.Seats.{waker_of};

    /// The waker, where one waits. It takes no memory.
    pub fn waker(self) -> Option<W>
        ensures { result ≡ waker_of self }
    {
        match self {
            Seat::Taken(waker) => Some(waker),
            Seat::Vacant => None,
        }
    }
}

impl<W: Wake> Wake for Seat<W> {
    fn wake(self) {
        match self {
            Seat::Taken(waker) => waker.wake(),
            Seat::Vacant => {}
        }
    }
}
