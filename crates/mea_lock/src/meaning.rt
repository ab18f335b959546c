ghost use Rattle.std.specs.Prelude.{◌≡◌};
ghost use Rattle.mea_lock_model.specs.Meaning.{meaning_of};
ghost use Rattle.mea_lock.specs.Actions.{meant, FitsMeaning};

use crate::access::Access;
use crate::actions::LockAction;
use mea_events::LockEvent;
use mea_family::Form;
use mea_lock_model::CondAction;

/// The most that may read at a time, where a script gives no number.
const MOST_READERS: usize = 9223372036854775807;

/// What a line does, and to locks of which kind or to condition variables.
#[derive(Clone, Copy)]
pub enum Meaning {
    /// Something to mutexes.
    Mutexes(LockAction),
    /// Something to reader-writer locks.
    RwLocks(LockAction),
    /// A guard of a reader-writer lock that writes reads from now on.
    Lowers(u64),
    /// Something to condition variables.
    Condvars(CondAction),
}

/// What this line does. It takes no memory.
pub fn meaning_of(event: &LockEvent) -> Meaning
    ensures means { meant result ≡ meaning_of event.now }
    ensures fits { FitsMeaning result }
{
    match *event {
        LockEvent::MxNew(v) => Meaning::Mutexes(LockAction::Make(v, 1)),
        LockEvent::MxLock(m) => Meaning::Mutexes(LockAction::Begin(m, Form::Plain, Access::Write)),
        LockEvent::MxLocko(m) => Meaning::Mutexes(LockAction::Begin(m, Form::Owned, Access::Write)),
        LockEvent::MxPoll(f, waker) => Meaning::Mutexes(LockAction::Poll(f, waker)),
        LockEvent::MxTry(m) => Meaning::Mutexes(LockAction::Try(m, Form::Plain, Access::Write)),
        LockEvent::MxTryo(m) => Meaning::Mutexes(LockAction::Try(m, Form::Owned, Access::Write)),
        LockEvent::MxGet(g) => Meaning::Mutexes(LockAction::Get(g)),
        LockEvent::MxSet(g, v) => Meaning::Mutexes(LockAction::Set(g, v)),
        LockEvent::MxEnd(x) => Meaning::Mutexes(LockAction::End(x)),
        LockEvent::MxPeek(m) => Meaning::Mutexes(LockAction::Peek(m)),
        LockEvent::MxPut(m, v) => Meaning::Mutexes(LockAction::Put(m, v)),
        LockEvent::MxInto(m) => Meaning::Mutexes(LockAction::Take(m)),
        LockEvent::MxDrop(m) => Meaning::Mutexes(LockAction::Drop(m)),
        LockEvent::RwNew(v) => Meaning::RwLocks(LockAction::Make(v, MOST_READERS)),
        LockEvent::RwMax(v, n) => Meaning::RwLocks(LockAction::Make(v, n as usize)),
        LockEvent::RwRead(l) => Meaning::RwLocks(LockAction::Begin(l, Form::Plain, Access::Read)),
        LockEvent::RwReado(l) => Meaning::RwLocks(LockAction::Begin(l, Form::Owned, Access::Read)),
        LockEvent::RwWrite(l) => Meaning::RwLocks(LockAction::Begin(l, Form::Plain, Access::Write)),
        LockEvent::RwWriteo(l) => Meaning::RwLocks(LockAction::Begin(
            l,
            Form::Owned,
            Access::Write,
        )),
        LockEvent::RwPoll(f, waker) => Meaning::RwLocks(LockAction::Poll(f, waker)),
        LockEvent::RwTryr(l) => Meaning::RwLocks(LockAction::Try(l, Form::Plain, Access::Read)),
        LockEvent::RwTryro(l) => Meaning::RwLocks(LockAction::Try(l, Form::Owned, Access::Read)),
        LockEvent::RwTryw(l) => Meaning::RwLocks(LockAction::Try(l, Form::Plain, Access::Write)),
        LockEvent::RwTrywo(l) => Meaning::RwLocks(LockAction::Try(l, Form::Owned, Access::Write)),
        LockEvent::RwGet(g) => Meaning::RwLocks(LockAction::Get(g)),
        LockEvent::RwSet(g, v) => Meaning::RwLocks(LockAction::Set(g, v)),
        LockEvent::RwDown(g) => Meaning::Lowers(g),
        LockEvent::RwEnd(x) => Meaning::RwLocks(LockAction::End(x)),
        LockEvent::RwPeek(l) => Meaning::RwLocks(LockAction::Peek(l)),
        LockEvent::RwPut(l, v) => Meaning::RwLocks(LockAction::Put(l, v)),
        LockEvent::RwInto(l) => Meaning::RwLocks(LockAction::Take(l)),
        LockEvent::RwDrop(l) => Meaning::RwLocks(LockAction::Drop(l)),
        LockEvent::CvNew => Meaning::Condvars(CondAction::Make),
        LockEvent::CvWait(c, g) => Meaning::Condvars(CondAction::Wait(c, g, None)),
        LockEvent::CvWaitw(c, g, v) => Meaning::Condvars(CondAction::Wait(c, g, Some(v))),
        LockEvent::CvPoll(f, waker) => Meaning::Condvars(CondAction::Poll(f, waker)),
        LockEvent::CvOne(c) => Meaning::Condvars(CondAction::One(c)),
        LockEvent::CvAll(c) => Meaning::Condvars(CondAction::All(c)),
        LockEvent::CvEnd(f) => Meaning::Condvars(CondAction::End(f)),
        LockEvent::CvDrop(c) => Meaning::Condvars(CondAction::Drop(c)),
    }
}
