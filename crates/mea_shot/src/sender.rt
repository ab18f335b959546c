ghost use Rattle.std.specs.Prelude.{◌≡◌, ◌↔◌, true, IsTrue, IfOk, IfErr, IsErr};
ghost use Rattle.mea_shot.specs.declared.view.View.TheVariants.{Sends, Receives};
ghost use Rattle.mea_shot.specs.declared.view.SendStage.TheVariants.{Ready, Shut, Refused};
ghost use Rattle.mea_shot.specs.declared.view.SendStage.TheVariants.{Sent as SentStage};
ghost use Rattle.mea_shot.specs.declared.view.RecvStage.TheVariants.{Waiting};

use crate::duty::Duty;
use crate::errors::SendError;
use crate::message::{Content, Message};
use crate::receiver::Receiver;
use crate::sending::{end_on, send_on};
use crate::steps::{Board, ask, split};
use crate::view::View;
use atomic_table::{Seat, Table};
use mea_base::{NoMemory, Wake};
use mea_wait::End;
use std::alloc::Global;
use std::marker::Model;
use std::sync::{Arc, Wait};

/// The end that sends. Contracts see what it knows. It is spent by `send` or by `end`, and to drop it ends it, as in the
/// crate: so it goes into a message, a list or a task as it is. It ports `mea::oneshot::Sender`.
pub struct Sender<T: Message + Drop, W: Wake + Drop> {
    board: Arc<Board<T, W>>,
    seat: Seat<Option<Content<T, W>>, View<W>>,
    duty: Duty,
}

impl<T: Message + Drop, W: Wake + Drop> Model for Sender<T, W> {
    ghost use Rattle.std.specs.Prelude.{◌≡◌, []};
    ghost use Rattle.std.specs.Arc.{arc_value};
    ghost use Rattle.mea_shot.specs.declared.view.View.{View};
    ghost use Rattle.mea_shot.specs.Steps.{IsOn, IsSender};

    ghost Value = { View W };

    ghost view = { λ s. s.seat.me.0 };

    ghost invariant = { λ s. IsOn s.seat.table_id (arc_value s.board).shared.table_id × IsSender s.seat.me.0 × (s.seat.me.1 ≡ []) };
}

/// What an accepted send leaves: the sender's seat, which says that this call told the message. It is given up by `end`, or
/// dropped.
#[derive(Drop)]
pub struct Sent<T: Message, W> {
    board: Arc<Board<T, W>>,
    seat: Seat<Option<Content<T, W>>, View<W>>,
    pub ghost sent: { seat.me.0 ≡ Sends SentStage },
}

/// What a refused send leaves: the message, and the sender's seat, which says that this call found the receiver ended.
/// `into_error` gives the message back.
#[derive(Drop)]
pub struct Unsent<T: Message, W> {
    /// The message that was not sent.
    pub message: T,
    board: Arc<Board<T, W>>,
    seat: Seat<Option<Content<T, W>>, View<W>>,
    pub ghost refused: { seat.me.0 ≡ Sends Refused },
}

/// A channel for one message. It takes the memory that both ends share; no later call takes any. It ports
/// `mea::oneshot::channel`.
pub fn channel<T: Message + Drop, W: Wake + Drop>(
    alloc: Global,
) -> Result<(Sender<T, W>, Receiver<T, W>), NoMemory>
    ensures { IfOk result (λ r. (r.0 ≡ Sends Ready) × (r.1 ≡ Receives Waiting)) }
{
    let made: (Board<T, W>, Seat<Option<Content<T, W>>, View<W>>) = Table::vacant(
        alloc,
        &[3],
        2,
        &(),
    )?;
    let (board, mut seat) = made;
    let other_seat = split(&board, &mut seat);
    let board = Arc::new(alloc, board)?;
    let other_board = Arc::try_clone(&board)?;
    Ok((
        Sender {
            board,
            seat,
            duty: Duty::new(),
        },
        Receiver::new(other_board, other_seat),
    ))
}

impl<T: Message + Drop, W: Wake + Drop> Sender<T, W> {
    /// Sends the message, and wakes the receiver that waits for it. It is refused only where the receiver has ended, also
    /// in the middle of the call; the message then comes back. It ports `mea::oneshot::Sender::send`.
    pub fn send(self, message: T) -> Result<Sent<T, W>, Unsent<T, W>>
        requires { T.fits message }
        ensures refused { IfErr result (λ e. e.message ≡ message) }
        ensures shut { self ≡ Sends Shut → IsErr result }
    {
        let Sender {
            board,
            mut seat,
            duty,
        } = self;
        match send_on(&*board, &mut seat, message) {
            Ok(()) => {
                duty.done(&seat);
                Ok(Sent { board, seat })
            }
            Err(message) => {
                duty.done(&seat);
                Err(Unsent {
                    message,
                    board,
                    seat,
                })
            }
        }
    }

    /// `send`, for who keeps no token of what came of it: the sender is spent, and only a refused message comes back. It is
    /// the call of `mea::oneshot::Sender::send` with its answer.
    pub fn send_and_end(self, message: T) -> Result<(), SendError<T>>
        requires { T.fits message }
        ensures refused { IfErr result (λ e. e.0 ≡ message) }
        ensures shut { self ≡ Sends Shut → IsErr result }
    {
        match self.send(message) {
            Ok(sent) => {
                sent.end();
                Ok(())
            }
            Err(unsent) => Err(unsent.into_error()),
        }
    }

    /// Whether the receiver has ended: a send is then refused. It ports `mea::oneshot::Sender::is_closed`.
    pub fn is_closed(&mut self) -> bool
        ensures tells { IsTrue result ↔ (self.new ≡ Sends Shut) }
        ensures stays { self.old ≡ Sends Shut → result ≡ true }
    {
        ask(&*self.board, &mut self.seat)
    }

    /// Ends the sender without a message, and wakes the receiver that waits for one. It ports the drop of
    /// `mea::oneshot::Sender`.
    pub fn end(self) {
        let Sender {
            board,
            mut seat,
            duty,
        } = self;
        end_on(&*board, &mut seat);
        duty.done(&seat);
    }
}

impl<T: Message + Drop, W: Wake + Drop> Drop for Sender<T, W> {
    fn drop(self) {
        self.end();
    }
}

// It takes no lock, and so asks nothing of the handle.
impl<T: Message + Drop, W: Wake + Drop> End for Sender<T, W> {
    fn end<R: Wait>(self, _rt: &R) {
        Sender::end(self);
    }
}

impl<T: Message + Drop, W: Wake + Drop> Sent<T, W> {
    /// Gives the token up.
    pub fn end(self) {
        let Sent { board: _, seat: _ } = self;
    }
}

impl<T: Message + Drop, W: Wake + Drop> Unsent<T, W> {
    /// The error with the message that was not sent.
    pub fn into_error(self) -> SendError<T>
        ensures { result.0 ≡ self.message }
    {
        let Unsent {
            message,
            board: _,
            seat: _,
        } = self;
        SendError(message)
    }
}
