//! What a script did, as a list of marks: the rows of what was made and of what waited, its events, polls and ends, and the
//! arrows of its wakes. It plays a script on any hall of all families and knows none. Above, in `mea_picture`, the marks
//! are drawn.
#![tactic(auto)]

mod arrows;
mod board;
mod deed;
mod deeds;
mod ending;
mod mark;
mod marks;
mod notes;
mod past;
mod playing;
mod reading;
mod row;
mod sort;
mod thing;

pub use board::Board;
pub use ending::Ending;
pub use mark::Mark;
pub use marks::marks_of;
pub use notes::{Level, Note, Notes};
pub use past::Past;
pub use playing::Playing;
pub use reading::{read_script, show};
pub use row::{Row, Stage};
pub use sort::Sort;
pub use thing::{Thing, same};
