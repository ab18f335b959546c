ghost use Rattle.std.specs.Prelude.{◌≡◌};
ghost use Rattle.mea_text.specs.Tables.{of_table};
ghost use Rattle.mea_lines.specs.OnceLines.{call_lines, cell_lines, map_lines, work_lines};

use mea_events::OnceEvent;
use mea_text::Numbers::{self, Bare, One, Two};
use mea_text::is;

/// The lines that speak of a call that runs once, and of its futures.
#[inline(always)]
#[tactic(auto, unfolding(crate::specs::OnceLines::call_lines))]
pub fn call_event(verb: &[u8], numbers: Numbers) -> Option<OnceEvent>
    ensures { result ≡ of_table call_lines verb.now numbers }
{
    match numbers {
        Bare => match verb {
            _ if is(verb, b"new") => Some(OnceEvent::OnNew),
            _ => None,
        },
        One(first) => match verb {
            _ if is(verb, b"done") => Some(OnceEvent::OnDone(first)),
            _ if is(verb, b"call") => Some(OnceEvent::OnCall(first)),
            _ if is(verb, b"wait") => Some(OnceEvent::OnWait(first)),
            _ if is(verb, b"settle") => Some(OnceEvent::OnSettle(first)),
            _ if is(verb, b"end") => Some(OnceEvent::OnEnd(first)),
            _ if is(verb, b"drop") => Some(OnceEvent::OnDrop(first)),
            _ => None,
        },
        Two(first, second) => match verb {
            _ if is(verb, b"poll") => Some(OnceEvent::OnPoll(first, second)),
            _ => None,
        },
        _ => None,
    }
}

/// The lines that speak of a cell and its futures.
#[inline(always)]
#[tactic(auto, unfolding(crate::specs::OnceLines::cell_lines))]
pub fn cell_event(verb: &[u8], numbers: Numbers) -> Option<OnceEvent>
    ensures { result ≡ of_table cell_lines verb.now numbers }
{
    match numbers {
        Bare => match verb {
            _ if is(verb, b"new") => Some(OnceEvent::OcNew),
            _ => None,
        },
        One(first) => match verb {
            _ if is(verb, b"from") => Some(OnceEvent::OcFrom(first)),
            _ if is(verb, b"get") => Some(OnceEvent::OcGet(first)),
            _ if is(verb, b"init") => Some(OnceEvent::OcInit(first)),
            _ if is(verb, b"minit") => Some(OnceEvent::OcMinit(first)),
            _ if is(verb, b"end") => Some(OnceEvent::OcEnd(first)),
            _ if is(verb, b"peek") => Some(OnceEvent::OcPeek(first)),
            _ if is(verb, b"take") => Some(OnceEvent::OcTake(first)),
            _ if is(verb, b"into") => Some(OnceEvent::OcInto(first)),
            _ if is(verb, b"drop") => Some(OnceEvent::OcDrop(first)),
            _ => None,
        },
        Two(first, second) => match verb {
            _ if is(verb, b"set") => Some(OnceEvent::OcSet(first, second)),
            _ if is(verb, b"ins") => Some(OnceEvent::OcIns(first, second)),
            _ if is(verb, b"poll") => Some(OnceEvent::OcPoll(first, second)),
            _ if is(verb, b"settle") => Some(OnceEvent::OcSettle(first, second)),
            _ if is(verb, b"fail") => Some(OnceEvent::OcFail(first, second)),
            _ if is(verb, b"put") => Some(OnceEvent::OcPut(first, second)),
            _ => None,
        },
        _ => None,
    }
}

/// The lines that speak of a map and its futures.
#[inline(always)]
#[tactic(auto, unfolding(crate::specs::OnceLines::map_lines))]
pub fn map_event(verb: &[u8], numbers: Numbers) -> Option<OnceEvent>
    ensures { result ≡ of_table map_lines verb.now numbers }
{
    match numbers {
        Bare => match verb {
            _ if is(verb, b"new") => Some(OnceEvent::OmNew),
            _ => None,
        },
        One(first) => match verb {
            _ if is(verb, b"end") => Some(OnceEvent::OmEnd(first)),
            _ if is(verb, b"drop") => Some(OnceEvent::OmDrop(first)),
            _ => None,
        },
        Two(first, second) => match verb {
            _ if is(verb, b"get") => Some(OnceEvent::OmGet(first, second)),
            _ if is(verb, b"compute") => Some(OnceEvent::OmCompute(first, second)),
            _ if is(verb, b"poll") => Some(OnceEvent::OmPoll(first, second)),
            _ if is(verb, b"settle") => Some(OnceEvent::OmSettle(first, second)),
            _ if is(verb, b"fail") => Some(OnceEvent::OmFail(first, second)),
            _ if is(verb, b"discard") => Some(OnceEvent::OmDiscard(first, second)),
            _ if is(verb, b"remove") => Some(OnceEvent::OmRemove(first, second)),
            _ => None,
        },
        _ => None,
    }
}

/// The lines that speak of a group that works once for a key, and of its futures.
#[inline(always)]
#[tactic(auto, unfolding(crate::specs::OnceLines::work_lines))]
pub fn work_event(verb: &[u8], numbers: Numbers) -> Option<OnceEvent>
    ensures { result ≡ of_table work_lines verb.now numbers }
{
    match numbers {
        Bare => match verb {
            _ if is(verb, b"new") => Some(OnceEvent::SfNew),
            _ => None,
        },
        One(first) => match verb {
            _ if is(verb, b"end") => Some(OnceEvent::SfEnd(first)),
            _ if is(verb, b"drop") => Some(OnceEvent::SfDrop(first)),
            _ => None,
        },
        Two(first, second) => match verb {
            _ if is(verb, b"work") => Some(OnceEvent::SfWork(first, second)),
            _ if is(verb, b"poll") => Some(OnceEvent::SfPoll(first, second)),
            _ if is(verb, b"settle") => Some(OnceEvent::SfSettle(first, second)),
            _ if is(verb, b"fail") => Some(OnceEvent::SfFail(first, second)),
            _ if is(verb, b"forget") => Some(OnceEvent::SfForget(first, second)),
            _ => None,
        },
        _ => None,
    }
}
