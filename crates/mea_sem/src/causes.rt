ghost use Rattle.std.specs.Prelude.{◌≡◌, is_some, IfSome, Some};
ghost use Rattle.std.specs.Option.{option_map, option_copied};
ghost use Rattle.std.specs.FinMap as map;
ghost use Rattle.mea_sem_model.specs.Hall.{live, plain_things};
ghost use Rattle.mea_sem_model.specs.Cause.{cause_of, is_named, is_future, is_permit, can_merge, are_of_one_kind};
ghost use Rattle.mea_sem.specs.Store.{permit_of};
ghost use Rattle.mea_sem.specs.StandsFor.{StandsFor};

use crate::entries::{PermitEntry, SemaphoreEntry};
use crate::family::SemFamily;
use mea_events::SemEvent;
use mea_family::{Stop, unknown_unless};

impl SemFamily {
    /// Why an event would be refused, but for want of memory; `None` where it would not be. It takes no
    /// memory.
    pub fn cause(&self, event: &SemEvent) -> Option<Stop>
        ensures { result ≡ cause_of self.now.hall event.now }
    {
        match *event {
            SemEvent::New(_) => None,
            SemEvent::Release(s, n) => self.cause_of_release(s, n),
            SemEvent::Endsem(s) => self.cause_of_end_name(s),
            SemEvent::Free(s) | SemEvent::Ledger(s) => unknown_unless(self.is_named(s)),
            SemEvent::Close(s) | SemEvent::Closed(s) => unknown_unless(self.is_named(s)),
            SemEvent::Forget(s, _) | SemEvent::Forgetx(s, _) => unknown_unless(self.is_named(s)),
            SemEvent::Try(s, _) | SemEvent::Tryo(s, _) => unknown_unless(self.is_named(s)),
            SemEvent::Tryf(s, _) | SemEvent::Tryof(s, _) => unknown_unless(self.is_named(s)),
            SemEvent::Acq(s, _) | SemEvent::Acqo(s, _) => unknown_unless(self.is_named(s)),
            SemEvent::Acqf(s, _) | SemEvent::Acqof(s, _) => unknown_unless(self.is_named(s)),
            SemEvent::Poll(f, _) => unknown_unless(self.is_future(f)),
            SemEvent::End(x) => unknown_unless(self.is_future(x) || self.is_permit(x)),
            SemEvent::Lose(p) | SemEvent::Size(p) => unknown_unless(self.is_permit(p)),
            SemEvent::Split(p, _) => unknown_unless(self.is_permit(p)),
            SemEvent::Merge(p, q) => unknown_unless(self.can_merge(p, q)),
        }
    }

    fn cause_of_release(&self, s: u64, n: u64) -> Option<Stop>
        ensures { result ≡ cause_of self.now.hall (SemEvent.Release s n) }
    {
        match self.named_entry(s) {
            Some(entry) => match entry.core.live().checked_add(n as usize) {
                Some(_) => None,
                None => Some(Stop::Overflow),
            },
            None => Some(Stop::Unknown),
        }
    }

    fn cause_of_end_name(&self, s: u64) -> Option<Stop>
        ensures { result ≡ cause_of self.now.hall (SemEvent.Endsem s) }
    {
        match self.named_entry(s) {
            Some(entry) if entry.plain > 0 => Some(Stop::Borrowed),
            Some(_) => None,
            None => Some(Stop::Unknown),
        }
    }

    // What is kept of a semaphore that is named.
    pub(crate) fn named_entry(&self, s: u64) -> Option<&SemaphoreEntry>
        ensures named { is_some result ≡ is_named self.now.hall s }
        ensures live { IfSome result (λ entry. entry.now.core.live ≡ live self.now.hall s) }
        ensures plain { IfSome result (λ entry. entry.now.plain ≡ plain_things self.now.hall s) }
        ensures stands { IfSome result (λ entry. StandsFor self.now.hall s entry.now.core) }
    {
        let entry = self.semaphores.get(&s)?;
        if entry.named { Some(entry) } else { None }
    }

    fn is_named(&self, s: u64) -> bool
        ensures { result ≡ is_named self.now.hall s }
    {
        self.named_entry(s).is_some()
    }

    pub(crate) fn is_future(&self, f: u64) -> bool
        ensures { result ≡ is_future self.now.hall f }
    {
        self.futures.has(f)
    }

    fn is_permit(&self, p: u64) -> bool
        ensures { result ≡ is_permit self.now.hall p }
    {
        self.permits.has(p)
    }

    fn can_merge(&self, p: u64, q: u64) -> bool
        ensures { result ≡ can_merge self.now.hall p q }
    {
        p != q && self.are_of_one_kind(p, q)
    }

    fn are_of_one_kind(&self, p: u64, q: u64) -> bool
        ensures { result ≡ are_of_one_kind (map.get self.now.hall.permits p) (map.get self.now.hall.permits q) }
    {
        match (self.kept_permit(p), self.kept_permit(q)) {
            (Some(x), Some(y)) => are_alike(x, y),
            _ => false,
        }
    }

    fn kept_permit(&self, p: u64) -> Option<&PermitEntry>
        ensures { map.get self.now.hall.permits p ≡ option_map permit_of (option_copied result) }
    {
        self.permits.get(p)
    }
}

pub(crate) fn are_alike(x: &PermitEntry, y: &PermitEntry) -> bool
    ensures { result ≡ are_of_one_kind (Some (permit_of x.now)) (Some (permit_of y.now)) }
{
    x.semaphore == y.semaphore && x.plain == y.plain
}
