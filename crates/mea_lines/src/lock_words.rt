ghost use Rattle.std.specs.Prelude.{◌≡◌};
ghost use Rattle.mea_text.specs.Tables.{of_table};
ghost use Rattle.mea_lines.specs.LockLines.{mutex_lines, rw_lock_lines, condvar_lines};

use mea_events::LockEvent;
use mea_text::Numbers::{self, Bare, One, Three, Two};
use mea_text::is;

/// The lines that speak of a mutex.
#[inline(always)]
#[tactic(auto, unfolding(crate::specs::LockLines::mutex_lines))]
pub fn mutex_event(verb: &[u8], numbers: Numbers) -> Option<LockEvent>
    ensures { result ≡ of_table mutex_lines verb.now numbers }
{
    match numbers {
        One(first) => match verb {
            _ if is(verb, b"new") => Some(LockEvent::MxNew(first)),
            _ if is(verb, b"lock") => Some(LockEvent::MxLock(first)),
            _ if is(verb, b"locko") => Some(LockEvent::MxLocko(first)),
            _ if is(verb, b"try") => Some(LockEvent::MxTry(first)),
            _ if is(verb, b"tryo") => Some(LockEvent::MxTryo(first)),
            _ if is(verb, b"get") => Some(LockEvent::MxGet(first)),
            _ if is(verb, b"end") => Some(LockEvent::MxEnd(first)),
            _ if is(verb, b"peek") => Some(LockEvent::MxPeek(first)),
            _ if is(verb, b"into") => Some(LockEvent::MxInto(first)),
            _ if is(verb, b"drop") => Some(LockEvent::MxDrop(first)),
            _ => None,
        },
        Two(first, second) => match verb {
            _ if is(verb, b"poll") => Some(LockEvent::MxPoll(first, second)),
            _ if is(verb, b"set") => Some(LockEvent::MxSet(first, second)),
            _ if is(verb, b"put") => Some(LockEvent::MxPut(first, second)),
            _ => None,
        },
        _ => None,
    }
}

/// The lines that speak of a reader-writer lock.
#[inline(always)]
#[tactic(auto, unfolding(crate::specs::LockLines::rw_lock_lines))]
pub fn rw_lock_event(verb: &[u8], numbers: Numbers) -> Option<LockEvent>
    ensures { result ≡ of_table rw_lock_lines verb.now numbers }
{
    match numbers {
        One(first) => match verb {
            _ if is(verb, b"new") => Some(LockEvent::RwNew(first)),
            _ if is(verb, b"read") => Some(LockEvent::RwRead(first)),
            _ if is(verb, b"reado") => Some(LockEvent::RwReado(first)),
            _ if is(verb, b"write") => Some(LockEvent::RwWrite(first)),
            _ if is(verb, b"writeo") => Some(LockEvent::RwWriteo(first)),
            _ if is(verb, b"tryr") => Some(LockEvent::RwTryr(first)),
            _ if is(verb, b"tryro") => Some(LockEvent::RwTryro(first)),
            _ if is(verb, b"tryw") => Some(LockEvent::RwTryw(first)),
            _ if is(verb, b"trywo") => Some(LockEvent::RwTrywo(first)),
            _ if is(verb, b"get") => Some(LockEvent::RwGet(first)),
            _ if is(verb, b"down") => Some(LockEvent::RwDown(first)),
            _ if is(verb, b"end") => Some(LockEvent::RwEnd(first)),
            _ if is(verb, b"peek") => Some(LockEvent::RwPeek(first)),
            _ if is(verb, b"into") => Some(LockEvent::RwInto(first)),
            _ if is(verb, b"drop") => Some(LockEvent::RwDrop(first)),
            _ => None,
        },
        Two(first, second) => match verb {
            _ if is(verb, b"max") => Some(LockEvent::RwMax(first, second)),
            _ if is(verb, b"poll") => Some(LockEvent::RwPoll(first, second)),
            _ if is(verb, b"set") => Some(LockEvent::RwSet(first, second)),
            _ if is(verb, b"put") => Some(LockEvent::RwPut(first, second)),
            _ => None,
        },
        _ => None,
    }
}

/// The lines that speak of a condition variable and its waits.
#[inline(always)]
#[tactic(auto, unfolding(crate::specs::LockLines::condvar_lines))]
pub fn condvar_event(verb: &[u8], numbers: Numbers) -> Option<LockEvent>
    ensures { result ≡ of_table condvar_lines verb.now numbers }
{
    match numbers {
        Bare => match verb {
            _ if is(verb, b"new") => Some(LockEvent::CvNew),
            _ => None,
        },
        One(first) => match verb {
            _ if is(verb, b"one") => Some(LockEvent::CvOne(first)),
            _ if is(verb, b"all") => Some(LockEvent::CvAll(first)),
            _ if is(verb, b"end") => Some(LockEvent::CvEnd(first)),
            _ if is(verb, b"drop") => Some(LockEvent::CvDrop(first)),
            _ => None,
        },
        Two(first, second) => match verb {
            _ if is(verb, b"wait") => Some(LockEvent::CvWait(first, second)),
            _ if is(verb, b"poll") => Some(LockEvent::CvPoll(first, second)),
            _ => None,
        },
        Three(first, second, third) => match verb {
            _ if is(verb, b"waitw") => Some(LockEvent::CvWaitw(first, second, third)),
            _ => None,
        },
    }
}
