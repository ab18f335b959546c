ghost use Rattle.std.specs.Prelude.{◌≡◌};
ghost use Rattle.mea_text.specs.Tables.{of_table};
ghost use Rattle.mea_job_run.specs.Lines.{job_lines, event_of};

use crate::event::JobEvent;
use mea_text::Numbers::{self, Bare, One, Two};
use mea_text::{cut, is, numbers_of};

/// The event of a line without its newline, if it is one: a word and its numbers, each after one space. It takes no
/// memory.
#[tactic(auto, unfolding(crate::specs::Lines::event_of))]
pub fn event_of_line(line: &[u8]) -> Option<JobEvent>
    ensures { result ≡ event_of line.now }
{
    match cut(line, b' ') {
        None => event_of_word(line, Numbers::Bare),
        Some((word, rest)) => event_of_word(word, numbers_of(rest)?),
    }
}

/// The event of a word and its numbers.
#[tactic(auto, unfolding(crate::specs::Lines::job_lines))]
fn event_of_word(word: &[u8], numbers: Numbers) -> Option<JobEvent>
    ensures { result ≡ of_table job_lines word.now numbers }
{
    match numbers {
        Bare => match word {
            _ if is(word, b"take") => Some(JobEvent::Take),
            _ if is(word, b"back") => Some(JobEvent::Back),
            _ if is(word, b"stop") => Some(JobEvent::Stop),
            _ if is(word, b"count") => Some(JobEvent::Count),
            _ => None,
        },
        One(first) => match word {
            _ if is(word, b"recall") => Some(JobEvent::Recall(first)),
            _ if is(word, b"poll") => Some(JobEvent::Poll(first)),
            _ => None,
        },
        Two(first, second) => match word {
            _ if is(word, b"job") => Some(JobEvent::Job(first, second)),
            _ if is(word, b"fin") => Some(JobEvent::Finish(first, second)),
            _ => None,
        },
        _ => None,
    }
}
