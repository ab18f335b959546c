ghost use Rattle.std.specs.Prelude.{◌≡◌};
ghost use Rattle.mea_text.specs.Tables.{of_table};
ghost use Rattle.mea_lines.specs.MeetLines.{barrier_lines, latch_lines, group_lines, shutdown_lines};

use mea_events::MeetEvent;
use mea_text::Numbers::{self, Bare, One, Two};
use mea_text::{count_of, is};

/// The lines that speak of a barrier.
#[inline(always)]
#[tactic(auto, unfolding(crate::specs::MeetLines::barrier_lines))]
pub fn barrier_event(verb: &[u8], numbers: Numbers) -> Option<MeetEvent>
    ensures { result ≡ of_table barrier_lines verb.now numbers }
{
    match numbers {
        One(first) => match verb {
            _ if is(verb, b"new") => Some(MeetEvent::BarNew(count_of(first)?)),
            _ if is(verb, b"wait") => Some(MeetEvent::BarWait(first)),
            _ if is(verb, b"end") => Some(MeetEvent::BarEnd(first)),
            _ if is(verb, b"drop") => Some(MeetEvent::BarDrop(first)),
            _ => None,
        },
        Two(first, second) => match verb {
            _ if is(verb, b"poll") => Some(MeetEvent::BarPoll(first, second)),
            _ => None,
        },
        _ => None,
    }
}

/// The lines that speak of a latch.
#[inline(always)]
#[tactic(auto, unfolding(crate::specs::MeetLines::latch_lines))]
pub fn latch_event(verb: &[u8], numbers: Numbers) -> Option<MeetEvent>
    ensures { result ≡ of_table latch_lines verb.now numbers }
{
    match numbers {
        One(first) => match verb {
            _ if is(verb, b"new") => Some(MeetEvent::LatNew(count_of(first)?)),
            _ if is(verb, b"count") => Some(MeetEvent::LatCount(first)),
            _ if is(verb, b"down") => Some(MeetEvent::LatDown(first)),
            _ if is(verb, b"try") => Some(MeetEvent::LatTry(first)),
            _ if is(verb, b"wait") => Some(MeetEvent::LatWait(first)),
            _ if is(verb, b"waito") => Some(MeetEvent::LatWaito(first)),
            _ if is(verb, b"end") => Some(MeetEvent::LatEnd(first)),
            _ if is(verb, b"drop") => Some(MeetEvent::LatDrop(first)),
            _ => None,
        },
        Two(first, second) => match verb {
            _ if is(verb, b"arrive") => Some(MeetEvent::LatArrive(first, count_of(second)?)),
            _ if is(verb, b"poll") => Some(MeetEvent::LatPoll(first, second)),
            _ => None,
        },
        _ => None,
    }
}

/// The lines that speak of a handle or a future of a wait group.
#[inline(always)]
#[tactic(auto, unfolding(crate::specs::MeetLines::group_lines))]
pub fn group_event(verb: &[u8], numbers: Numbers) -> Option<MeetEvent>
    ensures { result ≡ of_table group_lines verb.now numbers }
{
    match numbers {
        Bare => match verb {
            _ if is(verb, b"new") => Some(MeetEvent::WgNew),
            _ => None,
        },
        One(first) => match verb {
            _ if is(verb, b"clone") => Some(MeetEvent::WgClone(first)),
            _ if is(verb, b"into") => Some(MeetEvent::WgInto(first)),
            _ if is(verb, b"copy") => Some(MeetEvent::WgCopy(first)),
            _ if is(verb, b"end") => Some(MeetEvent::WgEnd(first)),
            _ => None,
        },
        Two(first, second) => match verb {
            _ if is(verb, b"poll") => Some(MeetEvent::WgPoll(first, second)),
            _ => None,
        },
        _ => None,
    }
}

/// The lines that speak of a shutdown.
#[inline(always)]
#[tactic(auto, unfolding(crate::specs::MeetLines::shutdown_lines))]
pub fn shutdown_event(verb: &[u8], numbers: Numbers) -> Option<MeetEvent>
    ensures { result ≡ of_table shutdown_lines verb.now numbers }
{
    match numbers {
        Bare => match verb {
            _ if is(verb, b"new") => Some(MeetEvent::SdNew),
            _ => None,
        },
        One(first) => match verb {
            _ if is(verb, b"copys") => Some(MeetEvent::SdCopys(first)),
            _ if is(verb, b"copyr") => Some(MeetEvent::SdCopyr(first)),
            _ if is(verb, b"signal") => Some(MeetEvent::SdSignal(first)),
            _ if is(verb, b"now") => Some(MeetEvent::SdNow(first)),
            _ if is(verb, b"watch") => Some(MeetEvent::SdWatch(first)),
            _ if is(verb, b"is") => Some(MeetEvent::SdIs(first)),
            _ if is(verb, b"iso") => Some(MeetEvent::SdIso(first)),
            _ if is(verb, b"await") => Some(MeetEvent::SdAwait(first)),
            _ if is(verb, b"end") => Some(MeetEvent::SdEnd(first)),
            _ if is(verb, b"ends") => Some(MeetEvent::SdEnds(first)),
            _ if is(verb, b"endr") => Some(MeetEvent::SdEndr(first)),
            _ => None,
        },
        Two(first, second) => match verb {
            _ if is(verb, b"poll") => Some(MeetEvent::SdPoll(first, second)),
            _ => None,
        },
        _ => None,
    }
}
