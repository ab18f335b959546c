ghost use Rattle.std.specs.Prelude.{◌≡◌, IfSome, is_some, Some, not, if◌then◌else◌};
ghost use Rattle.std.specs.Option.{option_map};
ghost use Rattle.std.specs.FinMap.{get};
ghost use Rattle.mea_chan_model.specs.Mailboxes.{polls_as};
ghost use Rattle.mea_chan.specs.MailboxParts.{receiver_seen};
ghost use Rattle.mea_chan.specs.Entries.{told, poll_told};

use mea_by_name::ByName;
use mea_chan_core::TryRecvError;
use mea_family::{Reply, Word};

/// What a hall keeps of a receiver.
#[derive(Clone, Copy)]
pub struct ReceiverEntry {
    pub channel: u64,
    /// Whether it can be polled.
    pub polls: bool,
}

/// The receiver of this name, where it can be polled or cannot, as is asked. It takes no memory.
pub fn receiver_in(receivers: &ByName<ReceiverEntry>, r: u64, polls: bool) -> Option<ReceiverEntry>
    ensures there { is_some result ≡ polls_as (option_map receiver_seen (get receivers.now r)) polls }
    ensures some { IfSome result (λ receiver. get receivers.now r ≡ Some receiver) }
{
    let receiver = *receivers.get(r)?;
    if is_as(receiver.polls, polls) {
        Some(receiver)
    } else {
        None
    }
}

fn is_as(polls: bool, wanted: bool) -> bool
    ensures { result ≡ (if wanted then polls else not polls) }
{
    polls == wanted
}

/// What a script is told of a receive. It takes no memory.
pub fn told(received: Result<u64, TryRecvError>) -> Reply
    ensures { result ≡ told received }
{
    match received {
        Ok(message) => Reply(Word::Got(message)),
        Err(TryRecvError::Empty) => Reply(Word::Empty),
        Err(TryRecvError::Disconnected) => Reply(Word::Gone),
    }
}

/// What a script is told of a poll. It takes no memory.
pub fn poll_told(received: Result<u64, TryRecvError>) -> Reply
    ensures { result ≡ poll_told received }
{
    match received {
        Ok(message) => Reply(Word::Got(message)),
        Err(TryRecvError::Empty) => Reply(Word::Pending),
        Err(TryRecvError::Disconnected) => Reply(Word::Gone),
    }
}
