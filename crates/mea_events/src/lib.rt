//! The events of scripts, one type for each family and one over all, and the replies to them as lists. Models, halls and
//! histories stand on it, and so on no word of a script: the words stand above it, in `mea_lines`.
#![tactic(auto)]

mod chan_event;
mod event;
mod lock_event;
mod meet_event;
mod once_event;
mod replies;
mod sem_event;
mod share_event;
mod shown;

pub use chan_event::ChanEvent;
pub use event::Event;
pub use lock_event::LockEvent;
pub use meet_event::MeetEvent;
pub use once_event::OnceEvent;
pub use replies::Replies;
pub use sem_event::SemEvent;
pub use share_event::ShareEvent;
