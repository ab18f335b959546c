ghost use Rattle.std.specs.Prelude.{◌≡◌};
ghost use Rattle.mea_marks.specs.Deeds.{semaphore_deed, meet_deed, lock_deed, chan_deed, share_deed, once_deed, deed_of, polls, ends};

use crate::deed::Deed;
use crate::sort::Sort;
use crate::thing::Thing;
use mea_events::{ChanEvent, Event, LockEvent, MeetEvent, OnceEvent, SemEvent, ShareEvent};

/// What an event does, as far as a picture shows it.
pub fn deed_of(event: &Event) -> Deed
    ensures { result ≡ deed_of event.now }
{
    match event {
        Event::Sem(event) => semaphore_deed(event),
        Event::Meet(event) => meet_deed(event),
        Event::Lock(event) => lock_deed(event),
        Event::Chan(event) => chan_deed(event),
        Event::Share(event) => share_deed(event),
        Event::Once(event) => once_deed(event),
    }
}

// What an event of semaphores does.
#[tactic(auto, unfolding(crate::specs::Deeds::semaphore_deed))]
fn semaphore_deed(event: &SemEvent) -> Deed
    ensures { result ≡ semaphore_deed event.now }
{
    match event {
        SemEvent::New(_) => Deed::Makes(Sort::Semaphore),
        SemEvent::Acq(a, _) | SemEvent::Acqo(a, _) | SemEvent::Acqf(a, _) | SemEvent::Acqof(a, _) =>
            Deed::Begins(Sort::Acquire, *a),
        SemEvent::Poll(a, b) => polls(Sort::Acquire, *a, *b),
        SemEvent::End(a) => ends(Sort::Acquire, *a),
        SemEvent::Endsem(a) => ends(Sort::Semaphore, *a),
        _ => Deed::Other,
    }
}

// What an event of meeting points does.
#[tactic(auto, unfolding(crate::specs::Deeds::meet_deed))]
fn meet_deed(event: &MeetEvent) -> Deed
    ensures { result ≡ meet_deed event.now }
{
    match event {
        MeetEvent::BarNew(_) => Deed::Makes(Sort::Barrier),
        MeetEvent::BarWait(a) => Deed::Begins(Sort::Arrival, *a),
        MeetEvent::BarPoll(a, b) => polls(Sort::Arrival, *a, *b),
        MeetEvent::BarEnd(a) => ends(Sort::Arrival, *a),
        MeetEvent::BarDrop(a) => ends(Sort::Barrier, *a),
        MeetEvent::LatNew(_) => Deed::Makes(Sort::Latch),
        MeetEvent::LatWait(a) | MeetEvent::LatWaito(a) => Deed::Begins(Sort::LatchWait, *a),
        MeetEvent::LatPoll(a, b) => polls(Sort::LatchWait, *a, *b),
        MeetEvent::LatEnd(a) => ends(Sort::LatchWait, *a),
        MeetEvent::LatDrop(a) => ends(Sort::Latch, *a),
        MeetEvent::WgNew => Deed::Makes(Sort::WaitGroup),
        MeetEvent::WgInto(a) | MeetEvent::WgCopy(a) => Deed::Begins(Sort::GroupWait, *a),
        MeetEvent::WgPoll(a, b) => polls(Sort::GroupWait, *a, *b),
        MeetEvent::WgEnd(a) => ends(Sort::GroupWait, *a),
        MeetEvent::SdNew => Deed::Makes(Sort::Shutdown),
        MeetEvent::SdIs(a) | MeetEvent::SdIso(a) | MeetEvent::SdAwait(a) => Deed::Begins(
            Sort::Signal,
            *a,
        ),
        MeetEvent::SdPoll(a, b) => polls(Sort::Signal, *a, *b),
        MeetEvent::SdEnd(a) => ends(Sort::Signal, *a),
        MeetEvent::WgClone(a)
        | MeetEvent::SdCopys(a)
        | MeetEvent::SdCopyr(a)
        | MeetEvent::SdWatch(a) => Deed::Copies(*a),
        _ => Deed::Other,
    }
}

// What an event of locks does.
#[tactic(auto, unfolding(crate::specs::Deeds::lock_deed))]
fn lock_deed(event: &LockEvent) -> Deed
    ensures { result ≡ lock_deed event.now }
{
    match event {
        LockEvent::MxNew(_) => Deed::Makes(Sort::Mutex),
        LockEvent::MxLock(a) | LockEvent::MxLocko(a) => Deed::Begins(Sort::Lock, *a),
        LockEvent::MxPoll(a, b) => polls(Sort::Lock, *a, *b),
        LockEvent::MxEnd(a) => ends(Sort::Lock, *a),
        LockEvent::MxInto(a) | LockEvent::MxDrop(a) => ends(Sort::Mutex, *a),
        LockEvent::RwNew(_) | LockEvent::RwMax(..) => Deed::Makes(Sort::RwLock),
        LockEvent::RwRead(a)
        | LockEvent::RwReado(a)
        | LockEvent::RwWrite(a)
        | LockEvent::RwWriteo(a) => Deed::Begins(Sort::Access, *a),
        LockEvent::RwPoll(a, b) => polls(Sort::Access, *a, *b),
        LockEvent::RwEnd(a) => ends(Sort::Access, *a),
        LockEvent::RwInto(a) | LockEvent::RwDrop(a) => ends(Sort::RwLock, *a),
        LockEvent::CvNew => Deed::Makes(Sort::Condvar),
        LockEvent::CvWait(a, _) | LockEvent::CvWaitw(a, _, _) => Deed::Begins(
            Sort::CondvarWait,
            *a,
        ),
        LockEvent::CvPoll(a, b) => polls(Sort::CondvarWait, *a, *b),
        LockEvent::CvEnd(a) => ends(Sort::CondvarWait, *a),
        LockEvent::CvDrop(a) => ends(Sort::Condvar, *a),
        _ => Deed::Other,
    }
}

// What an event of channels and boxes does.
#[tactic(auto, unfolding(crate::specs::Deeds::chan_deed))]
fn chan_deed(event: &ChanEvent) -> Deed
    ensures { result ≡ chan_deed event.now }
{
    match event {
        ChanEvent::MbNew(_) => Deed::Makes(Sort::Bounded),
        ChanEvent::MbSend(a, _) => Deed::Begins(Sort::Send, *a),
        ChanEvent::MbPoll(a, b) => polls(Sort::Send, *a, *b),
        ChanEvent::MbEnd(a) => ends(Sort::Send, *a),
        ChanEvent::MbRecv(a, b) => polls(Sort::BoundedReceive, *a, *b),
        ChanEvent::MbEndr(a) => ends(Sort::BoundedReceive, *a),
        ChanEvent::MuNew => Deed::Makes(Sort::Unbounded),
        ChanEvent::MuRecv(a, b) => polls(Sort::Receive, *a, *b),
        ChanEvent::MuEndr(a) => ends(Sort::Receive, *a),
        ChanEvent::OsNew => Deed::Makes(Sort::Oneshot),
        ChanEvent::OsInto(a) => Deed::Begins(Sort::OneshotReceive, *a),
        ChanEvent::OsPoll(a, b) => polls(Sort::OneshotReceive, *a, *b),
        ChanEvent::OsEnd(a) => ends(Sort::OneshotReceive, *a),
        ChanEvent::BcNew(_) => Deed::Makes(Sort::Broadcast),
        ChanEvent::BcRecv(a) => Deed::Begins(Sort::Hear, *a),
        ChanEvent::BcPoll(a, b) => polls(Sort::Hear, *a, *b),
        ChanEvent::BcEnd(a) => ends(Sort::Hear, *a),
        ChanEvent::AbNew(_) => Deed::Makes(Sort::AtomicBox),
        ChanEvent::AbInto(a) | ChanEvent::AbDrop(a) => ends(Sort::AtomicBox, *a),
        ChanEvent::AoNew(_) | ChanEvent::AoNone => Deed::Makes(Sort::OptionBox),
        ChanEvent::AoInto(a) | ChanEvent::AoDrop(a) => ends(Sort::OptionBox, *a),
        ChanEvent::MbCopy(a)
        | ChanEvent::MuCopy(a)
        | ChanEvent::BcCopys(a)
        | ChanEvent::BcSub(a)
        | ChanEvent::BcResub(a)
        | ChanEvent::BcCopyr(a) => Deed::Copies(*a),
        ChanEvent::MbTry(..)
        | ChanEvent::MbTryr(_)
        | ChanEvent::MbEnds(_)
        | ChanEvent::BcSend(..)
        | ChanEvent::BcTry(_)
        | ChanEvent::BcEndr(_)
        | ChanEvent::BcEnds(_)
        | ChanEvent::MuSend(..)
        | ChanEvent::MuTryr(_)
        | ChanEvent::MuEnds(_)
        | ChanEvent::OsSend(..)
        | ChanEvent::OsEnds(_)
        | ChanEvent::OsClosed(_)
        | ChanEvent::OsClosedr(_)
        | ChanEvent::OsHas(_)
        | ChanEvent::OsTry(_)
        | ChanEvent::OsEndr(_)
        | ChanEvent::AbSwap(..)
        | ChanEvent::AbStore(..)
        | ChanEvent::AbGet(_)
        | ChanEvent::AoSwap(..)
        | ChanEvent::AoStore(..)
        | ChanEvent::AoClear(_)
        | ChanEvent::AoTake(_)
        | ChanEvent::AoGet(_) => Deed::Other,
    }
}

// What an event of fair admission does.
#[tactic(auto, unfolding(crate::specs::Deeds::share_deed))]
fn share_deed(event: &ShareEvent) -> Deed
    ensures { result ≡ share_deed event.now }
{
    match event {
        ShareEvent::FsNew(_) => Deed::Makes(Sort::Admission),
        ShareEvent::FsAcq(a, _) | ShareEvent::FsAcqo(a, _) => Deed::Begins(Sort::Admit, *a),
        ShareEvent::FsPoll(a, b) => polls(Sort::Admit, *a, *b),
        ShareEvent::FsEnd(a) => ends(Sort::Admit, *a),
        ShareEvent::FsDrop(a) => ends(Sort::Admission, *a),
        _ => Deed::Other,
    }
}

// What an event of once types does.
#[tactic(auto, unfolding(crate::specs::Deeds::once_deed))]
fn once_deed(event: &OnceEvent) -> Deed
    ensures { result ≡ once_deed event.now }
{
    match event {
        OnceEvent::OnNew => Deed::Makes(Sort::Call),
        OnceEvent::OnCall(a) | OnceEvent::OnWait(a) => Deed::Begins(Sort::CallWait, *a),
        OnceEvent::OnPoll(a, b) => polls(Sort::CallWait, *a, *b),
        OnceEvent::OnEnd(a) => ends(Sort::CallWait, *a),
        OnceEvent::OnDrop(a) => ends(Sort::Call, *a),
        OnceEvent::OcNew | OnceEvent::OcFrom(_) => Deed::Makes(Sort::Cell),
        OnceEvent::OcInit(a)
        | OnceEvent::OcSet(a, _)
        | OnceEvent::OcIns(a, _)
        | OnceEvent::OcMinit(a) => Deed::Begins(Sort::CellWait, *a),
        OnceEvent::OcPoll(a, b) => polls(Sort::CellWait, *a, *b),
        OnceEvent::OcEnd(a) => ends(Sort::CellWait, *a),
        OnceEvent::OcInto(a) | OnceEvent::OcDrop(a) => ends(Sort::Cell, *a),
        OnceEvent::OmNew => Deed::Makes(Sort::Map),
        OnceEvent::OmCompute(a, _) => Deed::Begins(Sort::MapWait, *a),
        OnceEvent::OmPoll(a, b) => polls(Sort::MapWait, *a, *b),
        OnceEvent::OmEnd(a) => ends(Sort::MapWait, *a),
        OnceEvent::OmDrop(a) => ends(Sort::Map, *a),
        OnceEvent::SfNew => Deed::Makes(Sort::Flight),
        OnceEvent::SfWork(a, _) => Deed::Begins(Sort::FlightWait, *a),
        OnceEvent::SfPoll(a, b) => polls(Sort::FlightWait, *a, *b),
        OnceEvent::SfEnd(a) => ends(Sort::FlightWait, *a),
        OnceEvent::SfDrop(a) => ends(Sort::Flight, *a),
        _ => Deed::Other,
    }
}

fn polls(sort: Sort, name: u64, waker: u64) -> Deed
    ensures { result ≡ polls sort name waker }
{
    Deed::Polls(Thing { sort, name }, waker)
}

fn ends(sort: Sort, name: u64) -> Deed
    ensures { result ≡ ends sort name }
{
    Deed::Ends(Thing { sort, name })
}
