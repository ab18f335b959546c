ghost use Rattle.std.specs.Prelude.{◌≡◌, Some, None};
ghost use Rattle.mea_sem_core.specs.declared.acquire.Acquire.TheVariants as acquire;

use mea_chan_core::SendWait;
use std::marker::Model;

/// What a hall keeps of a send of a bounded channel.
#[derive(Drop)]
pub struct SendEntry {
    sender: u64,
    channel: u64,
    pub(crate) wait: SendWait<u64>,
}

impl Model for SendEntry {
    ghost use Rattle.mea_chan.specs.BoundedCores.{KeptSend};

    ghost Value = { KeptSend };

    ghost view = { λ x. record { sender = x.sender; channel = x.channel; value = x.wait.value; acquire = x.wait.acquire } };
}

impl SendEntry {
    /// A send that was never polled. It takes no memory.
    pub fn new(sender: u64, channel: u64, value: u64) -> Self
        ensures { result ≡ record { sender = sender; channel = channel; value = Some value; acquire = acquire.New 1 } }
    {
        SendEntry {
            sender,
            channel,
            wait: SendWait::new(value),
        }
    }

    /// The name of its sender. It takes no memory.
    pub fn sender(&self) -> u64
        ensures { result ≡ self.now.sender }
    {
        self.sender
    }

    /// The name of its channel. It takes no memory.
    pub fn channel(&self) -> u64
        ensures { result ≡ self.now.channel }
    {
        self.channel
    }
}
