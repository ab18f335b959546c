ghost use Rattle.std.specs.Prelude.{◌≡◌};
ghost use Rattle.mea_text.specs.Tables.{of_table};
ghost use Rattle.mea_lines.specs.ShareLines.{admission_lines};

use mea_events::ShareEvent;
use mea_text::Numbers::{self, One, Three, Two};
use mea_text::is;

/// The lines that speak of an admission, its futures and its permits.
#[inline(always)]
#[tactic(auto, unfolding(crate::specs::ShareLines::admission_lines))]
pub fn admission_event(verb: &[u8], numbers: Numbers) -> Option<ShareEvent>
    ensures { result ≡ of_table admission_lines verb.now numbers }
{
    match numbers {
        One(first) => match verb {
            _ if is(verb, b"new") => Some(ShareEvent::FsNew(first)),
            _ if is(verb, b"free") => Some(ShareEvent::FsFree(first)),
            _ if is(verb, b"waiters") => Some(ShareEvent::FsWaiters(first)),
            _ if is(verb, b"key") => Some(ShareEvent::FsKey(first)),
            _ if is(verb, b"end") => Some(ShareEvent::FsEnd(first)),
            _ if is(verb, b"drop") => Some(ShareEvent::FsDrop(first)),
            _ => None,
        },
        Two(first, second) => match verb {
            _ if is(verb, b"try") => Some(ShareEvent::FsTry(first, second)),
            _ if is(verb, b"tryo") => Some(ShareEvent::FsTryo(first, second)),
            _ if is(verb, b"acq") => Some(ShareEvent::FsAcq(first, second)),
            _ if is(verb, b"acqo") => Some(ShareEvent::FsAcqo(first, second)),
            _ if is(verb, b"poll") => Some(ShareEvent::FsPoll(first, second)),
            _ if is(verb, b"weightof") => Some(ShareEvent::FsWeightof(first, second)),
            _ => None,
        },
        Three(first, second, third) => match verb {
            _ if is(verb, b"weight") => Some(ShareEvent::FsWeight(first, second, third)),
            _ => None,
        },
        _ => None,
    }
}
