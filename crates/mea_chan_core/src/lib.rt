//! The cores of channels for one receiver, and of boxes: bounded and unbounded channels, the oneshot, and the two
//! boxes that are swapped whole. They are pure state, changed by `&mut self`; each makes wakers ready and calls none.
//! The senders of a full bounded channel wait on a `SemCore` without permits, which is known by its contract alone.
//! The hall of channels and the types that threads share stand on them.
#![tactic(auto)]

mod bounded;
mod box_core;
mod checked;
mod errors;
mod laws;
mod moving;
mod oneshot;
mod option_box_core;
mod send_wait;
mod unbounded;

pub use bounded::BoundedCore;
pub use box_core::BoxCore;
pub use errors::{RecvError, SendError, TryRecvError, TrySendError, UnboundedError};
pub use laws::{a_oneshot_has_one_message, messages_are_in_order, unbounded_messages_are_in_order};
pub use oneshot::OneshotCore;
pub use option_box_core::OptionBoxCore;
pub use send_wait::SendWait;
pub use unbounded::UnboundedCore;
