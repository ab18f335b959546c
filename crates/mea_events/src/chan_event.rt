ghost use Rattle.std.specs.Prelude.{◌≡◌, nat_eq};
ghost use Rattle.std.specs.Cmp.{on_equiv, on_per, partial_equiv_from_equiv};
ghost use Rattle.std.specs.Cmp.Lexicographic.{nat_list_eq_equiv, pointwise};
ghost use Rattle.mea_events.specs.ChanParts.{parts};

use crate::shown::{Shown, shown};
use std::fmt;

/// A line of a script that speaks of channels, or of boxes. In each, `s` names a sender, `r` a
/// receiver, `f` a future and `b` a box, by the number of the event that made it; `n` is a number of places, `v` a value and
/// `w` a waker. Names are by kind.
#[derive(Clone, Copy)]
pub enum ChanEvent {
    /// `mb.new n`: makes a channel with room for n messages, with a sender and a receiver.
    MbNew(u64),
    /// `mb.copy s`: makes a further sender.
    MbCopy(u64),
    /// `mb.try s v`: sends a message, where there is a place for it.
    MbTry(u64, u64),
    /// `mb.send s v`: makes a future that sends a message, and may wait for a place.
    MbSend(u64, u64),
    /// `mb.poll f w`: polls a send with a waker.
    MbPoll(u64, u64),
    /// `mb.end f`: ends a send; its message is dropped.
    MbEnd(u64),
    /// `mb.tryr r`: takes the first message, if there is one.
    MbTryr(u64),
    /// `mb.recv r w`: the same, or the receiver waits with a waker.
    MbRecv(u64, u64),
    /// `mb.ends s`: ends a sender.
    MbEnds(u64),
    /// `mb.endr r`: ends a receiver.
    MbEndr(u64),
    /// `bc.new n`: makes a broadcast channel that keeps the last n messages or more, with a sender and a receiver.
    BcNew(u64),
    /// `bc.copys s`: makes a further sender.
    BcCopys(u64),
    /// `bc.send s v`: sends a message to all receivers.
    BcSend(u64, u64),
    /// `bc.sub s`: makes a receiver of what is sent from now on.
    BcSub(u64),
    /// `bc.resub r`: makes a receiver of what is sent from now on.
    BcResub(u64),
    /// `bc.copyr r`: makes a receiver that has passed the same messages.
    BcCopyr(u64),
    /// `bc.try r`: takes the next message, if there is one.
    BcTry(u64),
    /// `bc.recv r`: makes a future of the next message, which uses the receiver alone.
    BcRecv(u64),
    /// `bc.poll f w`: polls the future with a waker.
    BcPoll(u64, u64),
    /// `bc.end f`: ends a future.
    BcEnd(u64),
    /// `bc.endr r`: ends a receiver.
    BcEndr(u64),
    /// `bc.ends s`: ends a sender.
    BcEnds(u64),
    /// `mu.new`: makes a channel that never is full, with a sender and a receiver.
    MuNew,
    /// `mu.copy s`: makes a further sender.
    MuCopy(u64),
    /// `mu.send s v`: sends a message.
    MuSend(u64, u64),
    /// `mu.tryr r`: takes the first message, if there is one.
    MuTryr(u64),
    /// `mu.recv r w`: the same, or the receiver waits with a waker.
    MuRecv(u64, u64),
    /// `mu.ends s`: ends a sender.
    MuEnds(u64),
    /// `mu.endr r`: ends a receiver.
    MuEndr(u64),
    /// `os.new`: makes a channel for one message, with a sender and a receiver.
    OsNew,
    /// `os.send s v`: sends the message; the sender is gone.
    OsSend(u64, u64),
    /// `os.ends s`: ends a sender.
    OsEnds(u64),
    /// `os.closed s`: tells whether the receiver ended.
    OsClosed(u64),
    /// `os.closedr r`: tells whether no message will come any more.
    OsClosedr(u64),
    /// `os.has r`: tells whether the message is there.
    OsHas(u64),
    /// `os.try r`: takes the message, if it is there.
    OsTry(u64),
    /// `os.into r`: makes the receiver a future of the message.
    OsInto(u64),
    /// `os.poll f w`: polls the future with a waker.
    OsPoll(u64, u64),
    /// `os.endr r`: ends a receiver.
    OsEndr(u64),
    /// `os.end f`: ends a future.
    OsEnd(u64),
    /// `ab.new v`: makes a box with a value.
    AbNew(u64),
    /// `ab.swap b v`: puts a value in, and tells the one before.
    AbSwap(u64, u64),
    /// `ab.store b v`: puts a value in.
    AbStore(u64, u64),
    /// `ab.get b`: tells the value.
    AbGet(u64),
    /// `ab.into b`: tells the value; the box is gone.
    AbInto(u64),
    /// `ab.drop b`: the box is gone.
    AbDrop(u64),
    /// `ao.new v`: makes an option box with a value.
    AoNew(u64),
    /// `ao.none`: makes an empty option box.
    AoNone,
    /// `ao.swap b v`: puts a value in, and tells what was there before.
    AoSwap(u64, u64),
    /// `ao.store b v`: puts a value in.
    AoStore(u64, u64),
    /// `ao.clear b`: empties it.
    AoClear(u64),
    /// `ao.take b`: empties it, and tells what was there.
    AoTake(u64),
    /// `ao.get b`: tells what is there.
    AoGet(u64),
    /// `ao.into b`: tells what is there; the box is gone.
    AoInto(u64),
    /// `ao.drop b`: the box is gone.
    AoDrop(u64),
}

impl ChanEvent {
    // Its name, how many numbers it has, and its parts: its place among the events of its family, and its numbers, 0
    // where it has fewer.
    #[tactic(auto, unfolding(crate::specs::ChanParts::parts))]
    fn shown(&self) -> Shown
        ensures { result.2 ≡ parts self.now }
    {
        match *self {
            ChanEvent::MbNew(a) => ("MbNew", 1, [0, a, 0, 0]),
            ChanEvent::MbCopy(a) => ("MbCopy", 1, [1, a, 0, 0]),
            ChanEvent::MbTry(a, b) => ("MbTry", 2, [2, a, b, 0]),
            ChanEvent::MbSend(a, b) => ("MbSend", 2, [3, a, b, 0]),
            ChanEvent::MbPoll(a, b) => ("MbPoll", 2, [4, a, b, 0]),
            ChanEvent::MbEnd(a) => ("MbEnd", 1, [5, a, 0, 0]),
            ChanEvent::MbTryr(a) => ("MbTryr", 1, [6, a, 0, 0]),
            ChanEvent::MbRecv(a, b) => ("MbRecv", 2, [7, a, b, 0]),
            ChanEvent::MbEnds(a) => ("MbEnds", 1, [8, a, 0, 0]),
            ChanEvent::MbEndr(a) => ("MbEndr", 1, [9, a, 0, 0]),
            ChanEvent::BcNew(a) => ("BcNew", 1, [10, a, 0, 0]),
            ChanEvent::BcCopys(a) => ("BcCopys", 1, [11, a, 0, 0]),
            ChanEvent::BcSend(a, b) => ("BcSend", 2, [12, a, b, 0]),
            ChanEvent::BcSub(a) => ("BcSub", 1, [13, a, 0, 0]),
            ChanEvent::BcResub(a) => ("BcResub", 1, [14, a, 0, 0]),
            ChanEvent::BcCopyr(a) => ("BcCopyr", 1, [15, a, 0, 0]),
            ChanEvent::BcTry(a) => ("BcTry", 1, [16, a, 0, 0]),
            ChanEvent::BcRecv(a) => ("BcRecv", 1, [17, a, 0, 0]),
            ChanEvent::BcPoll(a, b) => ("BcPoll", 2, [18, a, b, 0]),
            ChanEvent::BcEnd(a) => ("BcEnd", 1, [19, a, 0, 0]),
            ChanEvent::BcEndr(a) => ("BcEndr", 1, [20, a, 0, 0]),
            ChanEvent::BcEnds(a) => ("BcEnds", 1, [21, a, 0, 0]),
            ChanEvent::MuNew => ("MuNew", 0, [22, 0, 0, 0]),
            ChanEvent::MuCopy(a) => ("MuCopy", 1, [23, a, 0, 0]),
            ChanEvent::MuSend(a, b) => ("MuSend", 2, [24, a, b, 0]),
            ChanEvent::MuTryr(a) => ("MuTryr", 1, [25, a, 0, 0]),
            ChanEvent::MuRecv(a, b) => ("MuRecv", 2, [26, a, b, 0]),
            ChanEvent::MuEnds(a) => ("MuEnds", 1, [27, a, 0, 0]),
            ChanEvent::MuEndr(a) => ("MuEndr", 1, [28, a, 0, 0]),
            ChanEvent::OsNew => ("OsNew", 0, [29, 0, 0, 0]),
            ChanEvent::OsSend(a, b) => ("OsSend", 2, [30, a, b, 0]),
            ChanEvent::OsEnds(a) => ("OsEnds", 1, [31, a, 0, 0]),
            ChanEvent::OsClosed(a) => ("OsClosed", 1, [32, a, 0, 0]),
            ChanEvent::OsClosedr(a) => ("OsClosedr", 1, [33, a, 0, 0]),
            ChanEvent::OsHas(a) => ("OsHas", 1, [34, a, 0, 0]),
            ChanEvent::OsTry(a) => ("OsTry", 1, [35, a, 0, 0]),
            ChanEvent::OsInto(a) => ("OsInto", 1, [36, a, 0, 0]),
            ChanEvent::OsPoll(a, b) => ("OsPoll", 2, [37, a, b, 0]),
            ChanEvent::OsEndr(a) => ("OsEndr", 1, [38, a, 0, 0]),
            ChanEvent::OsEnd(a) => ("OsEnd", 1, [39, a, 0, 0]),
            ChanEvent::AbNew(a) => ("AbNew", 1, [40, a, 0, 0]),
            ChanEvent::AbSwap(a, b) => ("AbSwap", 2, [41, a, b, 0]),
            ChanEvent::AbStore(a, b) => ("AbStore", 2, [42, a, b, 0]),
            ChanEvent::AbGet(a) => ("AbGet", 1, [43, a, 0, 0]),
            ChanEvent::AbInto(a) => ("AbInto", 1, [44, a, 0, 0]),
            ChanEvent::AbDrop(a) => ("AbDrop", 1, [45, a, 0, 0]),
            ChanEvent::AoNew(a) => ("AoNew", 1, [46, a, 0, 0]),
            ChanEvent::AoNone => ("AoNone", 0, [47, 0, 0, 0]),
            ChanEvent::AoSwap(a, b) => ("AoSwap", 2, [48, a, b, 0]),
            ChanEvent::AoStore(a, b) => ("AoStore", 2, [49, a, b, 0]),
            ChanEvent::AoClear(a) => ("AoClear", 1, [50, a, 0, 0]),
            ChanEvent::AoTake(a) => ("AoTake", 1, [51, a, 0, 0]),
            ChanEvent::AoGet(a) => ("AoGet", 1, [52, a, 0, 0]),
            ChanEvent::AoInto(a) => ("AoInto", 1, [53, a, 0, 0]),
            ChanEvent::AoDrop(a) => ("AoDrop", 1, [54, a, 0, 0]),
        }
    }
}

impl PartialEq for ChanEvent {
    ghost eq = { λ a b. pointwise nat_eq (parts a) (parts b) };

    ghost laws = { on_per parts (partial_equiv_from_equiv nat_list_eq_equiv) };

    fn eq(&self, other: &ChanEvent) -> bool {
        self.shown().2 == other.shown().2
    }
}

impl Eq for ChanEvent {
    ghost laws = { on_equiv parts nat_list_eq_equiv };
}

impl fmt::Debug for ChanEvent {
    fn fmt<O: fmt::Write>(&self, f: &mut fmt::Formatter<O>) -> fmt::Result {
        shown(f, self.shown())
    }
}
