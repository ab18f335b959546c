ghost use Rattle.std.specs.Prelude.{◌≡◌};
ghost use Rattle.mea_text.specs.Tables.{of_table};
ghost use Rattle.mea_lines.specs.ChanLines.{bounded_lines, unbounded_lines, oneshot_lines, broadcast_lines, box_lines, option_box_lines};

use mea_events::ChanEvent;
use mea_text::Numbers::{self, Bare, One, Two};
use mea_text::is;

/// The lines that use a channel with room for so many messages.
#[inline(always)]
#[tactic(auto, unfolding(crate::specs::ChanLines::bounded_lines))]
pub fn bounded_event(verb: &[u8], numbers: Numbers) -> Option<ChanEvent>
    ensures { result ≡ of_table bounded_lines verb.now numbers }
{
    match numbers {
        One(first) => match verb {
            _ if is(verb, b"new") => Some(ChanEvent::MbNew(first)),
            _ if is(verb, b"copy") => Some(ChanEvent::MbCopy(first)),
            _ if is(verb, b"end") => Some(ChanEvent::MbEnd(first)),
            _ if is(verb, b"tryr") => Some(ChanEvent::MbTryr(first)),
            _ if is(verb, b"ends") => Some(ChanEvent::MbEnds(first)),
            _ if is(verb, b"endr") => Some(ChanEvent::MbEndr(first)),
            _ => None,
        },
        Two(first, second) => match verb {
            _ if is(verb, b"try") => Some(ChanEvent::MbTry(first, second)),
            _ if is(verb, b"send") => Some(ChanEvent::MbSend(first, second)),
            _ if is(verb, b"poll") => Some(ChanEvent::MbPoll(first, second)),
            _ if is(verb, b"recv") => Some(ChanEvent::MbRecv(first, second)),
            _ => None,
        },
        _ => None,
    }
}

/// The lines that use a channel for any number of messages.
#[inline(always)]
#[tactic(auto, unfolding(crate::specs::ChanLines::unbounded_lines))]
pub fn unbounded_event(verb: &[u8], numbers: Numbers) -> Option<ChanEvent>
    ensures { result ≡ of_table unbounded_lines verb.now numbers }
{
    match numbers {
        Bare => match verb {
            _ if is(verb, b"new") => Some(ChanEvent::MuNew),
            _ => None,
        },
        One(first) => match verb {
            _ if is(verb, b"copy") => Some(ChanEvent::MuCopy(first)),
            _ if is(verb, b"tryr") => Some(ChanEvent::MuTryr(first)),
            _ if is(verb, b"ends") => Some(ChanEvent::MuEnds(first)),
            _ if is(verb, b"endr") => Some(ChanEvent::MuEndr(first)),
            _ => None,
        },
        Two(first, second) => match verb {
            _ if is(verb, b"send") => Some(ChanEvent::MuSend(first, second)),
            _ if is(verb, b"recv") => Some(ChanEvent::MuRecv(first, second)),
            _ => None,
        },
        _ => None,
    }
}

/// The lines that use a channel for one message.
#[inline(always)]
#[tactic(auto, unfolding(crate::specs::ChanLines::oneshot_lines))]
pub fn oneshot_event(verb: &[u8], numbers: Numbers) -> Option<ChanEvent>
    ensures { result ≡ of_table oneshot_lines verb.now numbers }
{
    match numbers {
        Bare => match verb {
            _ if is(verb, b"new") => Some(ChanEvent::OsNew),
            _ => None,
        },
        One(first) => match verb {
            _ if is(verb, b"ends") => Some(ChanEvent::OsEnds(first)),
            _ if is(verb, b"closed") => Some(ChanEvent::OsClosed(first)),
            _ if is(verb, b"closedr") => Some(ChanEvent::OsClosedr(first)),
            _ if is(verb, b"has") => Some(ChanEvent::OsHas(first)),
            _ if is(verb, b"try") => Some(ChanEvent::OsTry(first)),
            _ if is(verb, b"into") => Some(ChanEvent::OsInto(first)),
            _ if is(verb, b"endr") => Some(ChanEvent::OsEndr(first)),
            _ if is(verb, b"end") => Some(ChanEvent::OsEnd(first)),
            _ => None,
        },
        Two(first, second) => match verb {
            _ if is(verb, b"send") => Some(ChanEvent::OsSend(first, second)),
            _ if is(verb, b"poll") => Some(ChanEvent::OsPoll(first, second)),
            _ => None,
        },
        _ => None,
    }
}

/// The lines that use a broadcast channel.
#[inline(always)]
#[tactic(auto, unfolding(crate::specs::ChanLines::broadcast_lines))]
pub fn broadcast_event(verb: &[u8], numbers: Numbers) -> Option<ChanEvent>
    ensures { result ≡ of_table broadcast_lines verb.now numbers }
{
    match numbers {
        One(first) => match verb {
            _ if is(verb, b"new") => Some(ChanEvent::BcNew(first)),
            _ if is(verb, b"copys") => Some(ChanEvent::BcCopys(first)),
            _ if is(verb, b"sub") => Some(ChanEvent::BcSub(first)),
            _ if is(verb, b"resub") => Some(ChanEvent::BcResub(first)),
            _ if is(verb, b"copyr") => Some(ChanEvent::BcCopyr(first)),
            _ if is(verb, b"try") => Some(ChanEvent::BcTry(first)),
            _ if is(verb, b"recv") => Some(ChanEvent::BcRecv(first)),
            _ if is(verb, b"end") => Some(ChanEvent::BcEnd(first)),
            _ if is(verb, b"endr") => Some(ChanEvent::BcEndr(first)),
            _ if is(verb, b"ends") => Some(ChanEvent::BcEnds(first)),
            _ => None,
        },
        Two(first, second) => match verb {
            _ if is(verb, b"send") => Some(ChanEvent::BcSend(first, second)),
            _ if is(verb, b"poll") => Some(ChanEvent::BcPoll(first, second)),
            _ => None,
        },
        _ => None,
    }
}

/// The lines that speak of a box.
#[inline(always)]
#[tactic(auto, unfolding(crate::specs::ChanLines::box_lines))]
pub fn box_event(verb: &[u8], numbers: Numbers) -> Option<ChanEvent>
    ensures { result ≡ of_table box_lines verb.now numbers }
{
    match numbers {
        One(first) => match verb {
            _ if is(verb, b"new") => Some(ChanEvent::AbNew(first)),
            _ if is(verb, b"get") => Some(ChanEvent::AbGet(first)),
            _ if is(verb, b"into") => Some(ChanEvent::AbInto(first)),
            _ if is(verb, b"drop") => Some(ChanEvent::AbDrop(first)),
            _ => None,
        },
        Two(first, second) => match verb {
            _ if is(verb, b"swap") => Some(ChanEvent::AbSwap(first, second)),
            _ if is(verb, b"store") => Some(ChanEvent::AbStore(first, second)),
            _ => None,
        },
        _ => None,
    }
}

/// The lines that speak of a box that may be empty.
#[inline(always)]
#[tactic(auto, unfolding(crate::specs::ChanLines::option_box_lines))]
pub fn option_box_event(verb: &[u8], numbers: Numbers) -> Option<ChanEvent>
    ensures { result ≡ of_table option_box_lines verb.now numbers }
{
    match numbers {
        Bare => match verb {
            _ if is(verb, b"none") => Some(ChanEvent::AoNone),
            _ => None,
        },
        One(first) => match verb {
            _ if is(verb, b"new") => Some(ChanEvent::AoNew(first)),
            _ if is(verb, b"clear") => Some(ChanEvent::AoClear(first)),
            _ if is(verb, b"take") => Some(ChanEvent::AoTake(first)),
            _ if is(verb, b"get") => Some(ChanEvent::AoGet(first)),
            _ if is(verb, b"into") => Some(ChanEvent::AoInto(first)),
            _ if is(verb, b"drop") => Some(ChanEvent::AoDrop(first)),
            _ => None,
        },
        Two(first, second) => match verb {
            _ if is(verb, b"swap") => Some(ChanEvent::AoSwap(first, second)),
            _ if is(verb, b"store") => Some(ChanEvent::AoStore(first, second)),
            _ => None,
        },
        _ => None,
    }
}
