ghost use Rattle.std.specs.Prelude.{◌≡◌, ◌++◌, [], take, length, OnOk};
ghost use Rattle.mea_pool_run.specs.Reply.{text_of};

use mea_base::NoMemory;
use mea_family::Answer;
use mea_text::{put_number, put_reply, put_text};

/// The reply to an event of a pool, without its wakes.
#[derive(Clone, Copy, Debug, PartialEq, Eq)]
pub enum PoolReply {
    /// What other scripts reply too.
    Told(Answer),
    /// `lease i v`: a lease was got, of the slot i with the resource v, and is named by this line.
    Leased(u64, u64),
    /// `unknown`: the name is not one of a living thing of its kind.
    Unknown,
}

/// Appends the text of a reply, with its newline, or some of it.
#[tactic(auto, using(mea_text::proofs::Puts::kept_before))]
pub fn put_pool_reply(out: &mut Vec<u8>, reply: &PoolReply, wakes: &[u64]) -> Result<(), NoMemory>
    ensures ok { OnOk result (out.new.items ≡ out.old.items ++ text_of reply.now wakes.now) }
    ensures kept { take (length out.old.items) out.new.items ≡ out.old.items }
{
    match reply {
        PoolReply::Told(answer) => put_reply(out, answer, wakes),
        PoolReply::Leased(slot, value) => put_lease(out, *slot, *value),
        PoolReply::Unknown => put_text(out, b"unknown\n"),
    }
}

#[tactic(auto, using(mea_text::proofs::Puts::kept_before))]
fn put_lease(out: &mut Vec<u8>, slot: u64, value: u64) -> Result<(), NoMemory>
    ensures ok { OnOk result (out.new.items ≡ out.old.items ++ text_of (PoolReply.Leased slot value) []) }
    ensures kept { take (length out.old.items) out.new.items ≡ out.old.items }
{
    put_text(out, b"lease")?;
    put_number(out, slot)?;
    put_number(out, value)?;
    put_text(out, b"\n")
}
