ghost use Rattle.std.specs.Prelude.{◌≡◌, ◌<◌, ◌↔◌, ℕ, List, None, Some, IfSome, length};
ghost use Rattle.mea_events.specs.declared.event.Event.{Event as Line};
ghost use Rattle.std.specs.Option.{option_map};
ghost use Rattle.mea_lines.specs.Lines.{dot_of, event_of, event_of_word, word_and_numbers};
ghost use Rattle.mea_lines.specs.Marks.{marks, of_marks};
ghost use Rattle.mea_lines.specs.Spelling.{spelling, Fits};

use crate::chan_words::{
    bounded_event, box_event, broadcast_event, oneshot_event, option_box_event, unbounded_event,
};
use crate::lock_words::{condvar_event, mutex_event, rw_lock_event};
use crate::meet_words::{barrier_event, group_event, latch_event, shutdown_event};
use crate::once_words::{call_event, cell_event, map_event, work_event};
use crate::sem_words::semaphore_event;
use crate::share_words::admission_event;
use mea_events::Event;
use mea_text::{Numbers, cut, numbers_of};

/// The event of a line without its newline, if it is one: a word and its numbers, each after one space. It
/// takes no memory.
#[tactic(auto, using(crate::proofs::Words::through_words))]
pub fn event_of_line(line: &[u8]) -> Option<Event>
    ensures { result ≡ event_of line.now }
{
    let (word, numbers) = word_and_numbers(line)?;
    event_of_word(word, numbers)
}

/// The word of a line, and the numbers after it.
fn word_and_numbers(line: &[u8]) -> Option<(&[u8], Numbers)>
    ensures { option_map (λ parts. (parts.0.now, parts.1)) result ≡ word_and_numbers line.now }
{
    match cut(line, b' ') {
        None => Some((line, Numbers::Bare)),
        Some((word, rest)) => Some((word, numbers_of(rest)?)),
    }
}

/// The event of a word and its numbers. The words of semaphores have no dot.
#[tactic(auto, using(crate::proofs::Dots::by_dot))]
fn event_of_word(word: &[u8], numbers: Numbers) -> Option<Event>
    ensures { result ≡ event_of_word word.now numbers }
{
    match dot_of(word) {
        None => semaphore_event(word, numbers).map(Event::Sem),
        Some(at) => marked_event(&word[..at], &word[at + 1..], numbers),
    }
}

/// Where the dot stands that ends a mark. A mark has two letters or three, so no other place is looked at.
#[tactic(auto, unfolding(crate::specs::Lines::dot_of), using(crate::proofs::Dots::no_dot_past))]
fn dot_of(word: &[u8]) -> Option<usize>
    ensures place { result ≡ dot_of word.now }
    ensures within { IfSome result (λ at. at < length word.now) }
{
    if word.len() > 2 && word[2] == b'.' {
        Some(2)
    } else if word.len() > 3 && word[3] == b'.' {
        Some(3)
    } else {
        None
    }
}

/// The event of a word that has a dot, by what stands before and after it.
#[tactic(auto, unfolding(crate::specs::Marks::marks))]
fn marked_event(mark: &[u8], verb: &[u8], numbers: Numbers) -> Option<Event>
    ensures { result ≡ of_marks marks mark.now verb.now numbers }
{
    match mark {
        b"bar" => barrier_event(verb, numbers).map(Event::Meet),
        b"lat" => latch_event(verb, numbers).map(Event::Meet),
        b"wg" => group_event(verb, numbers).map(Event::Meet),
        b"sd" => shutdown_event(verb, numbers).map(Event::Meet),
        b"mx" => mutex_event(verb, numbers).map(Event::Lock),
        b"rw" => rw_lock_event(verb, numbers).map(Event::Lock),
        b"cv" => condvar_event(verb, numbers).map(Event::Lock),
        b"mb" => bounded_event(verb, numbers).map(Event::Chan),
        b"mu" => unbounded_event(verb, numbers).map(Event::Chan),
        b"os" => oneshot_event(verb, numbers).map(Event::Chan),
        b"bc" => broadcast_event(verb, numbers).map(Event::Chan),
        b"ab" => box_event(verb, numbers).map(Event::Chan),
        b"ao" => option_box_event(verb, numbers).map(Event::Chan),
        b"fs" => admission_event(verb, numbers).map(Event::Share),
        b"on" => call_event(verb, numbers).map(Event::Once),
        b"oc" => cell_event(verb, numbers).map(Event::Once),
        b"om" => map_event(verb, numbers).map(Event::Once),
        b"sf" => work_event(verb, numbers).map(Event::Once),
        _ => None,
    }
}

/// Each event has one spelling: a line stands for an event exactly where it is the spelling of the event,
/// whose numbers fit their type. It does nothing.
pub fn lines_have_one_spelling()
    ensures { (line : List ℕ) (event : Line) → (event_of line ≡ Some event) ↔ ((line ≡ spelling event) × Fits event) }
{}

/// No line of more than 96 bytes stands for an event. It does nothing.
pub fn long_lines_are_no_events()
    ensures { (line : List ℕ) → 96 < length line → event_of line ≡ None }
{}
