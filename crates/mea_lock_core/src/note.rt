ghost use Rattle.std.specs.Prelude.{◌≡◌, ◌≤◌, ◌+◌, ◌-◌, length, OnOk, Some, None};
ghost use Rattle.mea_base.specs.WaitList.{get, IsInUse, Updates, without};
ghost use Rattle.mea_lock_core.specs.Condvar.{IsSound, Lists, first_notified, notified_all, passed_on};
ghost use Rattle.mea_lock_core.specs.Notes.{condvar_of, notified_in, is_waiting, is_by_one, AreNoted};

use mea_base::{NoMemory, Outbox, WaitList};
use std::mem;

// What a condition variable keeps of a wait that was polled: the waker while it waits, or whether it was
// notified alone.
#[derive(Debug, PartialEq, Eq, Drop)]
pub(crate) enum Note<W> {
    Waiting(W),
    Notified { by_one: bool },
}

impl<W> Note<W> {
    // Whether it was notified alone, where it was notified.
    pub(crate) fn notified(&self) -> Option<bool>
        ensures { result ≡ notified_in (Some self.now) }
    {
        match self {
            Note::Waiting(_) => None,
            Note::Notified { by_one } => Some(*by_one),
        }
    }

    // Whether it was not notified yet.
    pub(crate) fn waits(&self) -> bool
        ensures { result ≡ is_waiting self.now }
    {
        matches!(self, Note::Waiting(_))
    }

    // Whether it was notified alone.
    pub(crate) fn is_by_one(&self) -> bool
        ensures { result ≡ is_by_one self.now }
    {
        matches!(self, Note::Notified { by_one: true })
    }
}

// Makes room for one more wait and its waker.
#[tactic(auto, using(crate::proofs::Changes::same_condvar, crate::proofs::Kept::noted_same))]
pub(crate) fn reserve<W>(
    waiters: &mut WaitList<Note<W>>,
    outbox: &mut Outbox<W>,
) -> Result<(), NoMemory>
    requires { length waiters.old.order ≤ outbox.old.spare }
    ensures place { OnOk result (1 ≤ waiters.new.spare) }
    ensures waker { OnOk result (length waiters.new.order + 1 ≤ outbox.new.spare) }
    ensures room { length waiters.new.order ≤ outbox.new.spare }
    ensures same { condvar_of waiters.new outbox.new ≡ condvar_of waiters.old outbox.old }
    ensures noted { AreNoted waiters.old → AreNoted waiters.new }
    ensures waiters_kept { waiters.new ≡ record waiters.old { spare = waiters.new.spare } }
    ensures outbox_kept { outbox.new ≡ record outbox.old { spare = outbox.new.spare } }
{
    let Some(all) = waiters.len().checked_add(1) else {
        return Err(NoMemory);
    };
    waiters.reserve(1)?;
    outbox.reserve(all)
}

// Puts a wait last, where there is room for it and its waker, and tells its number.
#[tactic(auto, using(crate::proofs::Kept::noted_listed))]
pub(crate) fn push_wait<W>(waiters: &mut WaitList<Note<W>>, outbox: &Outbox<W>, waker: W) -> usize
    requires place { 1 ≤ waiters.old.spare }
    requires room { length waiters.old.order + 1 ≤ outbox.now.spare }
    requires noted { AreNoted waiters.old }
    ensures lists { Lists (condvar_of waiters.old outbox.now) (condvar_of waiters.new outbox.now) result waker }
    ensures noted { AreNoted waiters.new }
    ensures sound { IsSound (condvar_of waiters.new outbox.now) }
    ensures room { length waiters.new.order ≤ outbox.now.spare }
{
    match waiters.push_tail(Note::Waiting(waker)) {
        Ok(number) => number,
        Err(_) => unreachable!(),
    }
}

// Notifies the first that waits, if any does.
pub(crate) fn notify_first<W: Drop>(
    waiters: &mut WaitList<Note<W>>,
    outbox: &mut Outbox<W>,
    by_one: bool,
)
    requires room { length waiters.old.order ≤ outbox.old.spare }
    requires noted { AreNoted waiters.old }
    ensures notified { condvar_of waiters.new outbox.new ≡ first_notified by_one (condvar_of waiters.old outbox.old).waiting
        (condvar_of waiters.old outbox.old) }
    ensures noted { AreNoted waiters.new }
    ensures sound { IsSound (condvar_of waiters.new outbox.new) }
    ensures room { length waiters.new.order ≤ outbox.new.spare }
    ensures shorter { length waiters.new.order ≡ length waiters.old.order - 1 }
{
    let Some(number) = waiters.unlink_first() else {
        return;
    };
    let note = Note::Notified { by_one };
    if let Note::Waiting(waker) = mem::replace(waiters.get_mut(number), note) {
        outbox.push(waker);
    }
}

// Passes a notification that was for one alone on to the next that waits.
pub(crate) fn pass_on<W: Drop>(
    waiters: &mut WaitList<Note<W>>,
    outbox: &mut Outbox<W>,
    by_one: bool,
)
    requires room { length waiters.old.order ≤ outbox.old.spare }
    requires noted { AreNoted waiters.old }
    ensures passed { condvar_of waiters.new outbox.new ≡ passed_on by_one (condvar_of waiters.old outbox.old) }
    ensures noted { AreNoted waiters.new }
    ensures room { length waiters.new.order ≤ outbox.new.spare }
{
    if by_one {
        notify_first(waiters, outbox, true);
    }
}

// Notifies each that waits, in their order.
#[tactic(auto, using(crate::proofs::Changes::notified_all_step, crate::proofs::Changes::notified_all_end))]
pub(crate) fn notify_each<W: Drop>(waiters: &mut WaitList<Note<W>>, outbox: &mut Outbox<W>)
    requires room { length waiters.old.order ≤ outbox.old.spare }
    requires noted { AreNoted waiters.old }
    ensures notified { condvar_of waiters.new outbox.new ≡ notified_all (condvar_of waiters.old outbox.old) }
    ensures noted { AreNoted waiters.new }
    ensures sound { IsSound (condvar_of waiters.new outbox.new) }
    ensures room { length waiters.new.order ≤ outbox.new.spare }
{
    while let Some(_) = waiters.first() {
        notify_first(waiters, outbox, false);
    }
}

// Takes a wait out, wherever it stands.
pub(crate) fn take_out<W>(waiters: &mut WaitList<Note<W>>, number: usize) -> Note<W>
    requires { IsInUse waiters.old number }
    ensures note { get waiters.old number ≡ Some result }
    ensures updates { Updates waiters.old waiters.new number None }
    ensures order { waiters.new.order ≡ without number waiters.old.order }
    ensures shorter { length waiters.new.order ≤ length waiters.old.order }
    ensures noted { AreNoted waiters.old → AreNoted waiters.new }
    ensures spare { waiters.old.spare + 1 ≤ waiters.new.spare }
{
    waiters.unlink(number);
    waiters.remove_unlinked(number)
}
