ghost use Rattle.std.specs.Prelude.{◌≡◌};
ghost use Rattle.mea_meet_model.specs.Meaning.{meaning_of};
ghost use Rattle.mea_meet.specs.Actions.{meant, FitsMeaning};

use crate::actions::CountAction;
use crate::new_point::NewPoint;
use mea_events::MeetEvent;
use mea_family::Form;
use mea_meet_model::BarrierAction;

/// What a line does, and to meeting points of which kind.
#[derive(Clone, Copy)]
pub enum Meaning {
    /// Something to barriers.
    Barriers(BarrierAction),
    /// Something to latches.
    Latches(CountAction),
    /// Tells the count of a latch.
    Numbers(u64),
    /// Tells whether the count of a latch is 0, or else how much it is.
    Tries(u64),
    /// Something to wait groups.
    Groups(CountAction),
    /// Something to shutdowns.
    Shutdowns(CountAction),
}

/// What this line does. It takes no memory.
pub fn meaning_of(event: &MeetEvent) -> Meaning
    ensures means { meant result ≡ meaning_of event.now }
    ensures fits { FitsMeaning result }
{
    match *event {
        MeetEvent::BarNew(n) => Meaning::Barriers(BarrierAction::Make(n)),
        MeetEvent::BarWait(b) => Meaning::Barriers(BarrierAction::Begin(b)),
        MeetEvent::BarPoll(f, waker) => Meaning::Barriers(BarrierAction::Poll(f, waker)),
        MeetEvent::BarEnd(f) => Meaning::Barriers(BarrierAction::End(f)),
        MeetEvent::BarDrop(b) => Meaning::Barriers(BarrierAction::Drop(b)),
        MeetEvent::LatNew(n) => Meaning::Latches(CountAction::Make(NewPoint::latch(n))),
        MeetEvent::LatCount(l) => Meaning::Numbers(l),
        MeetEvent::LatDown(l) => Meaning::Latches(CountAction::Arrive(l, 1)),
        MeetEvent::LatArrive(l, n) => Meaning::Latches(CountAction::Arrive(l, n)),
        MeetEvent::LatTry(l) => Meaning::Tries(l),
        MeetEvent::LatWait(l) => Meaning::Latches(CountAction::Begin(l, Form::Plain)),
        MeetEvent::LatWaito(l) => Meaning::Latches(CountAction::Begin(l, Form::Owned)),
        MeetEvent::LatPoll(f, waker) => Meaning::Latches(CountAction::Poll(f, waker)),
        MeetEvent::LatEnd(f) => Meaning::Latches(CountAction::EndWait(f)),
        MeetEvent::LatDrop(l) => Meaning::Latches(CountAction::EndHolder(l)),
        MeetEvent::WgNew => Meaning::Groups(CountAction::Make(NewPoint::group())),
        MeetEvent::WgClone(k) => Meaning::Groups(CountAction::Join(k)),
        MeetEvent::WgInto(k) => Meaning::Groups(CountAction::Into(k)),
        MeetEvent::WgCopy(f) => Meaning::Groups(CountAction::Copy(f)),
        MeetEvent::WgPoll(f, waker) => Meaning::Groups(CountAction::Poll(f, waker)),
        MeetEvent::WgEnd(x) => Meaning::Groups(CountAction::EndEither(x)),
        MeetEvent::SdNew => Meaning::Shutdowns(CountAction::Make(NewPoint::shutdown())),
        MeetEvent::SdCopys(k) => Meaning::Shutdowns(CountAction::CopySender(k)),
        MeetEvent::SdCopyr(k) => Meaning::Shutdowns(CountAction::Join(k)),
        MeetEvent::SdSignal(k) => Meaning::Shutdowns(CountAction::Send(k)),
        MeetEvent::SdNow(k) => Meaning::Shutdowns(CountAction::Now(k)),
        MeetEvent::SdWatch(k) => Meaning::Shutdowns(CountAction::Watch(k)),
        MeetEvent::SdIs(k) => Meaning::Shutdowns(CountAction::Begin(k, Form::Plain)),
        MeetEvent::SdIso(k) => Meaning::Shutdowns(CountAction::Begin(k, Form::Owned)),
        MeetEvent::SdAwait(k) => Meaning::Shutdowns(CountAction::Await(k)),
        MeetEvent::SdPoll(f, waker) => Meaning::Shutdowns(CountAction::Poll(f, waker)),
        MeetEvent::SdEnd(f) => Meaning::Shutdowns(CountAction::EndWait(f)),
        MeetEvent::SdEnds(k) => Meaning::Shutdowns(CountAction::EndSender(k)),
        MeetEvent::SdEndr(k) => Meaning::Shutdowns(CountAction::EndHolder(k)),
    }
}
