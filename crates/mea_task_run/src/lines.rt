ghost use Rattle.std.specs.Prelude.{◌≡◌, ◌↔◌, ℕ, List, Some};
ghost use Rattle.mea_text.specs.Tables.{of_table};
ghost use Rattle.mea_task_run.specs.declared.event.TaskEvent.{TaskEvent as Spelled};
ghost use Rattle.mea_task_run.specs.Lines.{task_lines, event_of};
ghost use Rattle.mea_task_run.specs.Spelling.{spelling, Fits};

use crate::event::TaskEvent;
use mea_task_core::Step;
use mea_text::Numbers::{self, Bare, One, Two};
use mea_text::{cut, is, numbers_of};

/// The event of a line without its newline, if it has the form of one: a word and its numbers, each after one space. It
/// takes no memory.
pub fn event_of_line(line: &[u8]) -> Option<TaskEvent>
    ensures { result ≡ event_of line.now }
{
    match cut(line, b' ') {
        None => event_of_word(line, Numbers::Bare),
        Some((word, rest)) => event_of_word(word, numbers_of(rest)?),
    }
}

/// The event of a word and its numbers.
#[tactic(auto, unfolding(crate::specs::Lines::task_lines))]
fn event_of_word(word: &[u8], numbers: Numbers) -> Option<TaskEvent>
    ensures { result ≡ of_table task_lines word.now numbers }
{
    match numbers {
        Bare => match word {
            _ if is(word, b"task") => Some(TaskEvent::Task),
            _ if is(word, b"yield") => Some(TaskEvent::Step(Step::Yield)),
            _ => None,
        },
        One(first) => match word {
            _ if is(word, b"sem") => Some(TaskEvent::Sem(first as usize)),
            _ => None,
        },
        Two(first, second) => match word {
            _ if is(word, b"take") => Some(TaskEvent::Step(Step::Take(
                first as usize,
                second as usize,
            ))),
            _ if is(word, b"give") => Some(TaskEvent::Step(Step::Give(
                first as usize,
                second as usize,
            ))),
            _ => None,
        },
        _ => None,
    }
}

/// Each event has one spelling: a line stands for an event exactly where it is the spelling of that, whose numbers fit their
/// type. It does nothing.
pub fn lines_have_one_spelling()
    ensures { (line : List ℕ) (e : Spelled) → (event_of line ≡ Some e) ↔ ((line ≡ spelling e) × Fits e) }
{}
