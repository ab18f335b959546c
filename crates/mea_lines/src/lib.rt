//! The words of a script: which event a line stands for. Below it stand the events of all families, in `mea_events`,
//! and the reading of words and numbers, in `mea_text`; above it the program that reads scripts.
#![tactic(auto)]

mod chan_words;
mod lines;
mod lock_words;
mod meet_words;
mod once_words;
mod sem_words;
mod share_words;

pub use lines::{event_of_line, lines_have_one_spelling, long_lines_are_no_events};
