ghost use Rattle.std.specs.Prelude.{◌≡◌};
ghost use Rattle.mea_chan_model.specs.Meaning.{meaning_of};
ghost use Rattle.mea_chan.specs.Actions.{meant, FitsMeaning};

use crate::actions::{MailAction, OneshotAction, UnboundedAction};
use mea_chan_model::{BoundedAction, BoxAction, BroadcastAction};
use mea_events::ChanEvent;

/// What a line does, and to channels or boxes of which kind.
#[derive(Clone, Copy)]
pub enum Meaning {
    /// Something to bounded channels.
    Bounded(BoundedAction),
    /// Something to broadcast channels.
    Broadcasts(BroadcastAction),
    /// Something to unbounded channels.
    Unbounded(UnboundedAction),
    /// Something to oneshots.
    Oneshots(OneshotAction),
    /// Something to boxes.
    Boxes(BoxAction),
    /// Something to option boxes.
    OptionBoxes(BoxAction),
}

/// What this line does. It takes no memory.
pub fn meaning_of(event: &ChanEvent) -> Meaning
    ensures means { meant result ≡ meaning_of event.now }
    ensures fits { FitsMeaning result }
{
    match *event {
        ChanEvent::MbNew(n) => Meaning::Bounded(BoundedAction::Make(n)),
        ChanEvent::MbCopy(s) => Meaning::Bounded(BoundedAction::CopySender(s)),
        ChanEvent::MbTry(s, v) => Meaning::Bounded(BoundedAction::TrySend(s, v)),
        ChanEvent::MbSend(s, v) => Meaning::Bounded(BoundedAction::BeginSend(s, v)),
        ChanEvent::MbPoll(f, waker) => Meaning::Bounded(BoundedAction::PollSend(f, waker)),
        ChanEvent::MbEnd(f) => Meaning::Bounded(BoundedAction::EndSend(f)),
        ChanEvent::MbTryr(r) => Meaning::Bounded(BoundedAction::TryReceive(r)),
        ChanEvent::MbRecv(r, waker) => Meaning::Bounded(BoundedAction::PollReceive(r, waker)),
        ChanEvent::MbEnds(s) => Meaning::Bounded(BoundedAction::EndSender(s)),
        ChanEvent::MbEndr(r) => Meaning::Bounded(BoundedAction::EndReceiver(r)),
        ChanEvent::BcNew(n) => Meaning::Broadcasts(BroadcastAction::Make(n)),
        ChanEvent::BcCopys(s) => Meaning::Broadcasts(BroadcastAction::CopySender(s)),
        ChanEvent::BcSend(s, v) => Meaning::Broadcasts(BroadcastAction::SendAll(s, v)),
        ChanEvent::BcSub(s) => Meaning::Broadcasts(BroadcastAction::Subscribe(s)),
        ChanEvent::BcResub(r) => Meaning::Broadcasts(BroadcastAction::Resubscribe(r)),
        ChanEvent::BcCopyr(r) => Meaning::Broadcasts(BroadcastAction::CopyReceiver(r)),
        ChanEvent::BcTry(r) => Meaning::Broadcasts(BroadcastAction::Hear(r)),
        ChanEvent::BcRecv(r) => Meaning::Broadcasts(BroadcastAction::BeginHear(r)),
        ChanEvent::BcPoll(f, waker) => Meaning::Broadcasts(BroadcastAction::PollHear(f, waker)),
        ChanEvent::BcEnd(f) => Meaning::Broadcasts(BroadcastAction::EndHear(f)),
        ChanEvent::BcEndr(r) => Meaning::Broadcasts(BroadcastAction::EndReceiver(r)),
        ChanEvent::BcEnds(s) => Meaning::Broadcasts(BroadcastAction::EndSender(s)),
        ChanEvent::MuNew => on_unbounded(MailAction::Make(true)),
        ChanEvent::MuCopy(s) => Meaning::Unbounded(UnboundedAction::Copy(s)),
        ChanEvent::MuSend(s, v) => Meaning::Unbounded(UnboundedAction::Send(s, v)),
        ChanEvent::MuTryr(r) => on_unbounded(MailAction::Receive(r, true)),
        ChanEvent::MuRecv(r, waker) => on_unbounded(MailAction::Poll(r, waker)),
        ChanEvent::MuEnds(s) => on_unbounded(MailAction::EndSender(s)),
        ChanEvent::MuEndr(r) => on_unbounded(MailAction::EndReceiver(r, true)),
        ChanEvent::OsNew => on_oneshots(MailAction::Make(false)),
        ChanEvent::OsSend(s, v) => Meaning::Oneshots(OneshotAction::SendLast(s, v)),
        ChanEvent::OsEnds(s) => on_oneshots(MailAction::EndSender(s)),
        ChanEvent::OsClosed(s) => Meaning::Oneshots(OneshotAction::TellClosed(s)),
        ChanEvent::OsClosedr(r) => Meaning::Oneshots(OneshotAction::TellOver(r)),
        ChanEvent::OsHas(r) => Meaning::Oneshots(OneshotAction::TellMessage(r)),
        ChanEvent::OsTry(r) => on_oneshots(MailAction::Receive(r, false)),
        ChanEvent::OsInto(r) => Meaning::Oneshots(OneshotAction::IntoFuture(r)),
        ChanEvent::OsPoll(f, waker) => on_oneshots(MailAction::Poll(f, waker)),
        ChanEvent::OsEndr(r) => on_oneshots(MailAction::EndReceiver(r, false)),
        ChanEvent::OsEnd(f) => on_oneshots(MailAction::EndReceiver(f, true)),
        ChanEvent::AbNew(v) => Meaning::Boxes(BoxAction::MakeBox(Some(v))),
        ChanEvent::AbSwap(b, v) => Meaning::Boxes(BoxAction::Swap(b, Some(v))),
        ChanEvent::AbStore(b, v) => Meaning::Boxes(BoxAction::Store(b, Some(v))),
        ChanEvent::AbGet(b) => Meaning::Boxes(BoxAction::Tell(b)),
        ChanEvent::AbInto(b) => Meaning::Boxes(BoxAction::TakeOut(b)),
        ChanEvent::AbDrop(b) => Meaning::Boxes(BoxAction::DropBox(b)),
        ChanEvent::AoNew(v) => Meaning::OptionBoxes(BoxAction::MakeBox(Some(v))),
        ChanEvent::AoNone => Meaning::OptionBoxes(BoxAction::MakeBox(None)),
        ChanEvent::AoSwap(b, v) => Meaning::OptionBoxes(BoxAction::Swap(b, Some(v))),
        ChanEvent::AoStore(b, v) => Meaning::OptionBoxes(BoxAction::Store(b, Some(v))),
        ChanEvent::AoClear(b) => Meaning::OptionBoxes(BoxAction::Store(b, None)),
        ChanEvent::AoTake(b) => Meaning::OptionBoxes(BoxAction::Swap(b, None)),
        ChanEvent::AoGet(b) => Meaning::OptionBoxes(BoxAction::Tell(b)),
        ChanEvent::AoInto(b) => Meaning::OptionBoxes(BoxAction::TakeOut(b)),
        ChanEvent::AoDrop(b) => Meaning::OptionBoxes(BoxAction::DropBox(b)),
    }
}

// What may be done to a oneshot too, done to unbounded channels.
fn on_unbounded(action: MailAction) -> Meaning
    ensures { result ≡ Meaning.Unbounded (UnboundedAction.Mail action) }
{
    Meaning::Unbounded(UnboundedAction::Mail(action))
}

// What may be done to an unbounded channel too, done to oneshots.
fn on_oneshots(action: MailAction) -> Meaning
    ensures { result ≡ Meaning.Oneshots (OneshotAction.Mail action) }
{
    Meaning::Oneshots(OneshotAction::Mail(action))
}
