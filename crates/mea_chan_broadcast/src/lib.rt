//! Broadcast channels by name, with their senders, receivers and futures, over the cores of `mea_broadcast_core`: a part of
//! the hall of channels. It is proved against the model of `mea_chan_model`, and knows the cores by their contracts alone.
#![tactic(auto)]

mod broadcast_entry;
mod broadcast_part;
mod listener_entry;
mod recv_entry;

pub use broadcast_part::BroadcastPart;
