//! A picture of what a script did: the text that draws its marks. It plays a script on any hall of all families and knows
//! none. Below, in `mea_marks`, stand the marks; above, the program.
#![tactic(auto)]

mod ink;
mod labels;
mod lane;
mod layout;
mod picture;
mod running;
mod shape;
mod shapes;
mod status;
mod style;

pub use running::draw_script;
pub use status::DrawStatus;
