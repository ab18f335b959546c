ghost use Rattle.std.specs.Prelude.{◌≡◌};
ghost use Rattle.mea_text.specs.Tables.{of_table};
ghost use Rattle.mea_lines.specs.SemLines.{semaphore_lines};

use mea_events::SemEvent;
use mea_text::Numbers::{self, One, Two};
use mea_text::is;

/// The lines that speak of a semaphore, its futures and its permits.
#[inline(always)]
#[tactic(auto, unfolding(crate::specs::SemLines::semaphore_lines))]
pub fn semaphore_event(word: &[u8], numbers: Numbers) -> Option<SemEvent>
    ensures { result ≡ of_table semaphore_lines word.now numbers }
{
    match numbers {
        One(first) => match word {
            _ if is(word, b"new") => Some(SemEvent::New(first)),
            _ if is(word, b"free") => Some(SemEvent::Free(first)),
            _ if is(word, b"end") => Some(SemEvent::End(first)),
            _ if is(word, b"lose") => Some(SemEvent::Lose(first)),
            _ if is(word, b"size") => Some(SemEvent::Size(first)),
            _ if is(word, b"endsem") => Some(SemEvent::Endsem(first)),
            _ if is(word, b"ledger") => Some(SemEvent::Ledger(first)),
            _ if is(word, b"close") => Some(SemEvent::Close(first)),
            _ if is(word, b"closed") => Some(SemEvent::Closed(first)),
            _ => None,
        },
        Two(first, second) => match word {
            _ if is(word, b"forget") => Some(SemEvent::Forget(first, second)),
            _ if is(word, b"forgetx") => Some(SemEvent::Forgetx(first, second)),
            _ if is(word, b"release") => Some(SemEvent::Release(first, second)),
            _ if is(word, b"try") => Some(SemEvent::Try(first, second)),
            _ if is(word, b"tryo") => Some(SemEvent::Tryo(first, second)),
            _ if is(word, b"tryf") => Some(SemEvent::Tryf(first, second)),
            _ if is(word, b"tryof") => Some(SemEvent::Tryof(first, second)),
            _ if is(word, b"acq") => Some(SemEvent::Acq(first, second)),
            _ if is(word, b"acqo") => Some(SemEvent::Acqo(first, second)),
            _ if is(word, b"acqf") => Some(SemEvent::Acqf(first, second)),
            _ if is(word, b"acqof") => Some(SemEvent::Acqof(first, second)),
            _ if is(word, b"poll") => Some(SemEvent::Poll(first, second)),
            _ if is(word, b"merge") => Some(SemEvent::Merge(first, second)),
            _ if is(word, b"split") => Some(SemEvent::Split(first, second)),
            _ => None,
        },
        _ => None,
    }
}
