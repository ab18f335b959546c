ghost use Rattle.std.specs.Prelude.{◌≡◌, cond, is_some, if◌then◌else◌};
ghost use Rattle.mea_family.specs.declared.answer.Answer.{Answer};
ghost use Rattle.mea_family.specs.Play.{content};
ghost use Rattle.mea_once_model.specs.Cells.{is_alone, can_settle, found_full, has_filled, settled, init_of};
ghost use Rattle.mea_once.specs.Parts.{is_wait};

use mea_family::{Reply, Word};
use mea_once_model::{Errand, Initialiser};

/// Whether it uses its cell alone.
pub fn is_alone(errand: Errand) -> bool
    ensures { result ≡ is_alone errand }
{
    match errand {
        Errand::Alone(_) => true,
        _ => false,
    }
}

/// 1 for one that uses its cell alone.
pub fn one_if_alone(errand: Errand) -> u128
    ensures { result ≡ cond (is_alone errand) 1 0 }
{
    if is_alone(errand) { 1 } else { 0 }
}

/// Whether it waits until its cell is full.
pub fn is_wait(errand: Errand) -> bool
    ensures { result ≡ is_wait errand }
{
    match errand {
        Errand::Awaits => true,
        _ => false,
    }
}

/// Whether it has an initialiser that is not settled.
pub fn can_settle(errand: Errand) -> bool
    ensures { result ≡ can_settle errand }
{
    match errand {
        Errand::Calls(Initialiser::Unsettled) => true,
        Errand::Computes(Initialiser::Unsettled) => true,
        Errand::Alone(Initialiser::Unsettled) => true,
        _ => false,
    }
}

/// What it comes to when its turn has come.
pub fn outcome(errand: Errand) -> Initialiser
    ensures { result ≡ init_of errand }
{
    match errand {
        Errand::Calls(outcome) | Errand::Computes(outcome) | Errand::Alone(outcome) => outcome,
        Errand::Sets(v) | Errand::Inserts(v) => Initialiser::Gives(v),
        Errand::Awaits => Initialiser::Unsettled,
    }
}

/// The same, with its initialiser settled.
pub fn settled(errand: Errand, outcome: Initialiser) -> Errand
    ensures { result ≡ settled outcome errand }
{
    match errand {
        Errand::Calls(_) => Errand::Calls(outcome),
        Errand::Computes(_) => Errand::Computes(outcome),
        Errand::Alone(_) => Errand::Alone(outcome),
        Errand::Sets(v) => Errand::Sets(v),
        Errand::Inserts(v) => Errand::Inserts(v),
        Errand::Awaits => Errand::Awaits,
    }
}

/// The reply where its cell was full.
pub fn found_full(errand: Errand, value: u64) -> Reply
    ensures { result ≡ found_full errand value }
{
    match errand {
        Errand::Calls(_) | Errand::Awaits => Reply(Word::Ready),
        Errand::Computes(_) | Errand::Alone(_) => Reply(Word::Value(value)),
        Errand::Sets(v) => Reply(Word::Back(v)),
        Errand::Inserts(v) => Reply(Word::Kept(value, v)),
    }
}

/// The reply where it filled its cell.
pub fn has_filled(errand: Errand, value: u64) -> Reply
    ensures { result ≡ has_filled errand value }
{
    match errand {
        Errand::Calls(_) | Errand::Awaits => Reply(Word::Ready),
        Errand::Sets(_) => Reply(Word::Accepted),
        Errand::Computes(_) | Errand::Alone(_) | Errand::Inserts(_) => Reply(Word::Value(value)),
    }
}

/// The reply that tells what is there.
pub fn content(value: Option<u64>) -> Reply
    ensures { result ≡ content value }
{
    match value {
        Some(v) => Reply(Word::Value(v)),
        None => Reply(Word::Lacking),
    }
}

/// The reply that tells whether there is a value.
pub fn yes_if_full(value: Option<u64>) -> Reply
    ensures { result ≡ (if is_some value then Answer.Yes else Answer.No) }
{
    match value {
        Some(_) => Reply(Word::Yes),
        None => Reply(Word::No),
    }
}
