ghost use Rattle.std.specs.Prelude.{◌≡◌, nat_eq};
ghost use Rattle.std.specs.Cmp.{on_equiv, on_per, partial_equiv_from_equiv};
ghost use Rattle.std.specs.Cmp.Lexicographic.{nat_list_eq_equiv, pointwise};
ghost use Rattle.mea_events.specs.SemParts.{parts};

use crate::shown::{Shown, shown};
use std::fmt;

/// A line of a script that speaks of semaphores. In each, `s` names a semaphore, `f` a future, `p` and
/// `q` permits and `x` a future or a permit, by the number of the event that made it; `n` counts permits
/// and `w` is a waker.
#[derive(Clone, Copy)]
pub enum SemEvent {
    /// `new n`: makes a semaphore with n free permits.
    New(u64),
    /// `free s`: tells the free permits.
    Free(u64),
    /// `forget s n`: takes at most n free permits away.
    Forget(u64, u64),
    /// `forgetx s n`: takes n permits away; those that are not free become a debt.
    Forgetx(u64, u64),
    /// `release s n`: adds n permits.
    Release(u64, u64),
    /// `try s n`: takes n free permits as a plain permit, if there are so many.
    Try(u64, u64),
    /// `tryo s n`: the same as an owned permit.
    Tryo(u64, u64),
    /// `tryf s n`: takes n free permits away for ever, if there are so many.
    Tryf(u64, u64),
    /// `tryof s n`: the same by an owned permit that is forgotten.
    Tryof(u64, u64),
    /// `acq s n`: makes a plain future of n permits.
    Acq(u64, u64),
    /// `acqo s n`: makes an owned future.
    Acqo(u64, u64),
    /// `acqf s n`: makes a plain future that forgets what it takes.
    Acqf(u64, u64),
    /// `acqof s n`: makes an owned future that forgets what it takes.
    Acqof(u64, u64),
    /// `poll f w`: polls a future with a waker.
    Poll(u64, u64),
    /// `end x`: ends a future or a permit, and gives back what it has.
    End(u64),
    /// `lose p`: ends a permit and gives nothing back.
    Lose(u64),
    /// `merge p q`: adds the permit q to p.
    Merge(u64, u64),
    /// `split p n`: takes n of a permit as a new one.
    Split(u64, u64),
    /// `size p`: tells the size of a permit.
    Size(u64),
    /// `endsem s`: ends the name of a semaphore.
    Endsem(u64),
    /// `ledger s`: tells the account of a semaphore.
    Ledger(u64),
    /// `close s`: closes a semaphore; the futures that wait leave its queue.
    Close(u64),
    /// `closed s`: tells whether a semaphore is closed.
    Closed(u64),
}

impl SemEvent {
    // Its name, how many numbers it has, and its parts: its place among the events of its family, and its numbers, 0
    // where it has fewer.
    #[tactic(auto, unfolding(crate::specs::SemParts::parts))]
    fn shown(&self) -> Shown
        ensures { result.2 ≡ parts self.now }
    {
        match *self {
            SemEvent::New(a) => ("New", 1, [0, a, 0, 0]),
            SemEvent::Free(a) => ("Free", 1, [1, a, 0, 0]),
            SemEvent::Forget(a, b) => ("Forget", 2, [2, a, b, 0]),
            SemEvent::Forgetx(a, b) => ("Forgetx", 2, [3, a, b, 0]),
            SemEvent::Release(a, b) => ("Release", 2, [4, a, b, 0]),
            SemEvent::Try(a, b) => ("Try", 2, [5, a, b, 0]),
            SemEvent::Tryo(a, b) => ("Tryo", 2, [6, a, b, 0]),
            SemEvent::Tryf(a, b) => ("Tryf", 2, [7, a, b, 0]),
            SemEvent::Tryof(a, b) => ("Tryof", 2, [8, a, b, 0]),
            SemEvent::Acq(a, b) => ("Acq", 2, [9, a, b, 0]),
            SemEvent::Acqo(a, b) => ("Acqo", 2, [10, a, b, 0]),
            SemEvent::Acqf(a, b) => ("Acqf", 2, [11, a, b, 0]),
            SemEvent::Acqof(a, b) => ("Acqof", 2, [12, a, b, 0]),
            SemEvent::Poll(a, b) => ("Poll", 2, [13, a, b, 0]),
            SemEvent::End(a) => ("End", 1, [14, a, 0, 0]),
            SemEvent::Lose(a) => ("Lose", 1, [15, a, 0, 0]),
            SemEvent::Merge(a, b) => ("Merge", 2, [16, a, b, 0]),
            SemEvent::Split(a, b) => ("Split", 2, [17, a, b, 0]),
            SemEvent::Size(a) => ("Size", 1, [18, a, 0, 0]),
            SemEvent::Endsem(a) => ("Endsem", 1, [19, a, 0, 0]),
            SemEvent::Ledger(a) => ("Ledger", 1, [20, a, 0, 0]),
            SemEvent::Close(a) => ("Close", 1, [21, a, 0, 0]),
            SemEvent::Closed(a) => ("Closed", 1, [22, a, 0, 0]),
        }
    }
}

impl PartialEq for SemEvent {
    ghost eq = { λ a b. pointwise nat_eq (parts a) (parts b) };

    ghost laws = { on_per parts (partial_equiv_from_equiv nat_list_eq_equiv) };

    fn eq(&self, other: &SemEvent) -> bool {
        self.shown().2 == other.shown().2
    }
}

impl Eq for SemEvent {
    ghost laws = { on_equiv parts nat_list_eq_equiv };
}

impl fmt::Debug for SemEvent {
    fn fmt<O: fmt::Write>(&self, f: &mut fmt::Formatter<O>) -> fmt::Result {
        shown(f, self.shown())
    }
}
