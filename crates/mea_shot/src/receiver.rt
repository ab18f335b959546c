ghost use Rattle.std.specs.Prelude.{◌≡◌, ◌≢◌, ◌⊎◌, ◌↔◌, true, IsTrue, IfOk, OnOk, IfErr, OnErr, IsOk};
ghost use Rattle.std.specs.Arc.{arc_value};
ghost use Rattle.mea_shot.specs.Steps.{IsOn, IsOver, FindsNothing, TakesNothing, IsUnpublished};
ghost use Rattle.mea_shot.specs.declared.view.View.TheVariants.{Receives};
ghost use Rattle.mea_shot.specs.declared.view.RecvStage.TheVariants.{Waiting, Published, Woken, Full, Received};

use crate::duty::Duty;
use crate::errors::{RecvError, TryRecvError};
use crate::message::{Content, Message};
use crate::receiving::{end_unpublished, poll_published, poll_unpublished, take};
use crate::steps::{Board, look, reclaim};
use crate::view::View;
use atomic_table::Seat;
use mea_base::{Poll, Wake};
use mea_wait::End;
use std::marker::Model;
use std::sync::{Arc, Wait};

/// The end that receives. Contracts see what it knows. It is spent by `into_future` or by `end`, and to drop it
/// ends it, as in the crate. It ports `mea::oneshot::Receiver`.
pub struct Receiver<T: Message + Drop, W: Wake + Drop> {
    board: Arc<Board<T, W>>,
    seat: Seat<Option<Content<T, W>>, View<W>>,
    duty: Duty,
}

impl<T: Message + Drop, W: Wake + Drop> Model for Receiver<T, W> {
    ghost use Rattle.std.specs.Prelude.{◌≡◌};
    ghost use Rattle.std.specs.Arc.{arc_value};
    ghost use Rattle.mea_shot.specs.declared.view.View.{View};
    ghost use Rattle.mea_shot.specs.Steps.{IsOn, IsUnpublished};

    ghost Value = { View W };

    ghost view = { λ s. s.seat.me.0 };

    ghost invariant = { λ s. IsOn s.seat.table_id (arc_value s.board).shared.table_id × IsUnpublished s.seat.me };
}

/// A receiver that is polled. Contracts see what it knows. It is spent by `end`, and to drop it ends it, as in the crate. It
/// ports `mea::oneshot::Recv`.
pub struct Recv<T: Message + Drop, W: Wake + Drop> {
    board: Arc<Board<T, W>>,
    seat: Seat<Option<Content<T, W>>, View<W>>,
    published: bool,
    duty: Duty,
}

impl<T: Message + Drop, W: Wake + Drop> Model for Recv<T, W> {
    ghost use Rattle.std.specs.Prelude.{◌≡◌, MatchBool};
    ghost use Rattle.std.specs.Arc.{arc_value};
    ghost use Rattle.mea_shot.specs.declared.view.View.{View};
    ghost use Rattle.mea_shot.specs.Steps.{IsOn, IsUnpublished, IsPublished};

    ghost Value = { View W };

    ghost view = { λ s. s.seat.me.0 };

    ghost invariant = { λ s. IsOn s.seat.table_id (arc_value s.board).shared.table_id × MatchBool s.published (IsPublished s.seat.me) (IsUnpublished s.seat.me) };
}

impl<T: Message + Drop, W: Wake + Drop> Receiver<T, W> {
    pub(crate) fn new(
        board: Arc<Board<T, W>>,
        seat: Seat<Option<Content<T, W>>, View<W>>,
    ) -> Receiver<T, W>
        requires board { IsOn seat.table_id (arc_value board).shared.table_id }
        requires seat { IsUnpublished seat.me }
        ensures { result ≡ seat.me.0 }
    {
        Receiver {
            board,
            seat,
            duty: Duty::new(),
        }
    }
}

impl<T: Message + Drop, W: Wake + Drop> Receiver<T, W> {
    /// Whether nothing comes any more, since the message was received or the sender has ended without one: each call that
    /// receives then answers `Disconnected`. It takes no message. It ports `mea::oneshot::Receiver::is_closed`.
    pub fn is_closed(&mut self) -> bool
        ensures tells { IsTrue result ↔ IsOver self.new }
        ensures keeps { TakesNothing self.old self.new }
        ensures stays { IsOver self.old → (result ≡ true) × (self.new ≡ self.old) }
    {
        look(&*self.board, &mut self.seat) == 2
    }

    /// Whether the message is there: the next call that receives gives it. It takes no message. It ports
    /// `mea::oneshot::Receiver::has_message`.
    pub fn has_message(&mut self) -> bool
        ensures tells { IsTrue result ↔ (self.new ≡ Receives Full) }
        ensures keeps { TakesNothing self.old self.new }
        ensures stays { self.old ≡ Receives Full → result ≡ true }
    {
        look(&*self.board, &mut self.seat) == 4
    }

    /// Takes the message, where it is there. It answers `Disconnected` only where the message was received before, or the
    /// sender has ended without one. It ports `mea::oneshot::Receiver::try_recv`.
    pub fn try_recv(&mut self) -> Result<T, TryRecvError>
        ensures fits { IfOk result (λ m. T.fits m) }
        ensures taken { OnOk result (self.new ≡ Receives Received) }
        ensures err { IfErr result (λ e. (e ≡ TryRecvError.Empty → self.new ≡ Receives Waiting) × (e ≡ TryRecvError.Disconnected → FindsNothing self.old self.new)) }
        ensures full { self.old ≡ Receives Full → IsOk result }
        ensures over { IsOver self.old → (result ≡ Err TryRecvError.Disconnected) × (self.new ≡ self.old) }
    {
        let found = look(&*self.board, &mut self.seat);
        if found == 2 {
            return Err(TryRecvError::Disconnected);
        }
        if found == 4 {
            return Ok(take(&*self.board, &mut self.seat));
        }
        Err(TryRecvError::Empty)
    }

    /// The future of the message. It ports `IntoFuture` of `mea::oneshot::Receiver`.
    pub fn into_future(self) -> Recv<T, W>
        ensures { result ≡ self }
    {
        let Receiver { board, seat, duty } = self;
        Recv {
            board,
            seat,
            published: false,
            duty,
        }
    }

    /// Ends the receiver. A message that it has not received is dropped, and a later send is refused. It ports the
    /// drop of `mea::oneshot::Receiver`.
    pub fn end(self) {
        let Receiver {
            board,
            mut seat,
            duty,
        } = self;
        end_unpublished(&*board, &mut seat);
        duty.done(&seat);
    }
}

impl<T: Message + Drop, W: Wake + Drop> Recv<T, W> {
    /// Takes the message, or leaves the waker for the sender; the waker of the poll before is dropped. Where the sender
    /// is just about to wake that one, this waker is woken at once instead. It answers `Disconnected` only where the
    /// message was received before, or the sender has ended without one. It ports `mea::oneshot::Recv::poll`.
    pub fn poll(&mut self, waker: W) -> Poll<Result<T, RecvError>>
        ensures fits { (r : _) → result ≡ Poll.Ready r → IfOk r (λ m. T.fits m) }
        ensures taken { (r : _) → result ≡ Poll.Ready r → OnOk r (self.new ≡ Receives Received) }
        ensures err { (r : _) → result ≡ Poll.Ready r → OnErr r (FindsNothing self.old self.new) }
        ensures over { IsOver self.old → (result ≡ Poll.Ready (Err RecvError.Disconnected)) × (self.new ≡ self.old) }
        ensures pending { result ≡ Poll.Pending → (self.new ≡ Receives (Published waker)) ⊎ (self.new ≡ Receives Woken) }
        ensures full { self.old ≡ Receives Full → result ≢ Poll.Pending }
        ensures given { self.old ≡ Receives Full → (r : _) → result ≡ Poll.Ready r → IsOk r }
    {
        let got = if self.published {
            poll_published(&*self.board, &mut self.seat, waker)
        } else {
            poll_unpublished(&*self.board, &mut self.seat, waker)
        };
        match got {
            None => {
                self.published = true;
                Poll::Pending
            }
            Some(Some(message)) => {
                self.published = false;
                Poll::Ready(Ok(message))
            }
            Some(None) => {
                self.published = false;
                Poll::Ready(Err(RecvError::Disconnected))
            }
        }
    }

    /// Ends the future, and with it the receiver: its waker is taken back, a message that it has not received is dropped,
    /// and a later send is refused. It ports the drop of `mea::oneshot::Recv`.
    pub fn end(self) {
        let Recv {
            board,
            mut seat,
            published,
            duty,
        } = self;
        if published {
            reclaim(&*board, &mut seat);
        }
        end_unpublished(&*board, &mut seat);
        duty.done(&seat);
    }
}

impl<T: Message + Drop, W: Wake + Drop> Drop for Receiver<T, W> {
    fn drop(self) {
        self.end();
    }
}

impl<T: Message + Drop, W: Wake + Drop> Drop for Recv<T, W> {
    fn drop(self) {
        self.end();
    }
}

// They take no lock, and so ask nothing of the handle.
impl<T: Message + Drop, W: Wake + Drop> End for Receiver<T, W> {
    fn end<R: Wait>(self, _rt: &R) {
        Receiver::end(self);
    }
}

impl<T: Message + Drop, W: Wake + Drop> End for Recv<T, W> {
    fn end<R: Wait>(self, _rt: &R) {
        Recv::end(self);
    }
}
