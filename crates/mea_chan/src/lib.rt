//! The hall of channels and of boxes: many of them by name, with their senders and receivers, over the cores of
//! `mea_chan_core` and `mea_broadcast_core`. It is proved against the model of `mea_chan_model`, and knows the cores by their contracts
//! alone.
#![tactic(auto)]

mod actions;
mod bounded_entry;
mod bounded_part;
mod box_part;
mod boxed_core;
mod channel_entry;
mod family;
mod kinds;
mod mailbox_core;
mod mailbox_part;
mod meaning;
mod oneshots;
mod receiver_entry;
mod send_entry;
mod sender_entry;
mod unbounded_channels;

pub use family::{ChanFamily, ChanHall, ChanModel};
pub use mea_events::ChanEvent;
