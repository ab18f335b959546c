ghost use Rattle.std.specs.Prelude.{◌≡◌};
ghost use Rattle.mea_text.specs.Tables.{of_table};
ghost use Rattle.mea_pool_run.specs.Lines.{pool_lines, event_of};

use crate::event::PoolEvent;
use mea_text::Numbers::{self, Bare, One, Two};
use mea_text::{cut, is, numbers_of};

/// The event of a line without its newline, if it is one: a word and its numbers, each after one space. It takes no
/// memory.
pub fn event_of_line(line: &[u8]) -> Option<PoolEvent>
    ensures { result ≡ event_of line.now }
{
    match cut(line, b' ') {
        None => event_of_word(line, Numbers::Bare),
        Some((word, rest)) => event_of_word(word, numbers_of(rest)?),
    }
}

/// The event of a word and its numbers.
#[tactic(auto, unfolding(crate::specs::Lines::pool_lines))]
fn event_of_word(word: &[u8], numbers: Numbers) -> Option<PoolEvent>
    ensures { result ≡ of_table pool_lines word.now numbers }
{
    match numbers {
        Bare => match word {
            _ if is(word, b"ask") => Some(PoolEvent::Ask),
            _ if is(word, b"wait") => Some(PoolEvent::Wait),
            _ if is(word, b"drain") => Some(PoolEvent::Drain),
            _ if is(word, b"idle") => Some(PoolEvent::Idle),
            _ => None,
        },
        One(name) => match word {
            _ if is(word, b"back") => Some(PoolEvent::Back(name)),
            _ if is(word, b"end") => Some(PoolEvent::End(name)),
            _ => None,
        },
        Two(name, number) => match word {
            _ if is(word, b"poll") => Some(PoolEvent::Poll(name, number)),
            _ if is(word, b"use") => Some(PoolEvent::Use(name, number)),
            _ => None,
        },
        _ => None,
    }
}
