//! How lines are read and written: a line is cut into a word and its numbers, a word is looked up in a table, and a
//! reply is put as text. It knows no event and no model; the words of each script stand above it.
#![tactic(auto)]

mod command;
mod cutting;
mod number;
mod numbers;
mod reply;
mod text;

pub use command::{command_numbers, numbers_of_command};
pub use cutting::{cut, cut_line, is};
pub use number::{count_of, number_of};
pub use numbers::{Numbers, numbers_of};
pub use reply::put_reply;
pub use text::{put_line, put_number, put_text, put_total};
