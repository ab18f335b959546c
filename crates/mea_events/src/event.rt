use crate::chan_event::ChanEvent;
use crate::lock_event::LockEvent;
use crate::meet_event::MeetEvent;
use crate::once_event::OnceEvent;
use crate::sem_event::SemEvent;
use crate::share_event::ShareEvent;

/// A line of a script, one variant for each family of primitives.
#[derive(Clone, Copy, Debug, PartialEq, Eq)]
pub enum Event {
    Sem(SemEvent),
    Meet(MeetEvent),
    Lock(LockEvent),
    Chan(ChanEvent),
    Share(ShareEvent),
    Once(OnceEvent),
}
