ghost use Rattle.std.specs.Prelude.{◌≡◌, ◌⊎◌, ◌+◌, ◌-◌, ◌<◌, ◌≤◌, ◌^◌, ℕ, IsSome, Some, OnOk, OnErr, IfErr, IfSome, IfNone, IsTrue, is_some, ◌↔◌};
ghost use Rattle.std.specs.FinMap as map;
ghost use Rattle.mea_share_core.specs.Share.{new_share, held_of, waiting_of, IsWaiting, IsAdmitted, taken, queued, left, admitting, readied, given_up, released, weighing, IsOldest};
ghost use Rattle.mea_share_core.specs.Groups.{IsRank};

use crate::admitted::Admitted;
use crate::rank::Rank;
use crate::waiters::Waiters;
use std::alloc::Global;
use std::marker::Model;

/// What one key has: its weight, what it holds, and who waits of it.
///
/// Room for an admission is made when its acquire begins to wait, so that to admit takes no memory.
#[derive(Drop)]
pub struct ShareGroup<W> {
    weight: u64,
    living: usize,
    // The living permits and those admitted.
    held: usize,
    admitted: Admitted,
    waiters: Waiters<W>,
    // How many wait.
    waiting: usize,
}

impl<W> Model for ShareGroup<W> {
    ghost use Rattle.std.specs.Prelude.{◌≡◌, ◌+◌, ◌<◌, ◌≤◌};
    ghost use Rattle.std.specs.FinMap as map;
    ghost use Rattle.mea_share_core.specs.Share.{Share, share_code};

    ghost Value = { Share W };

    ghost coded = { share_code W.code };

    ghost view = { λ g. record { weight = g.weight; living = g.living; admitted = g.admitted.members; waiting = g.waiters } };

    ghost invariant = { λ g. record {
      positive : 0 < g.weight;
      held : g.held ≡ g.living + map.len g.admitted.members;
      waiting : g.waiting ≡ map.len g.waiters;
      room : g.waiting ≤ g.admitted.spare;
    } };
}

impl<W: Drop> ShareGroup<W> {
    // That of a key that was never named. It takes no memory.
    pub(crate) fn new(alloc: Global) -> Self
        ensures { result ≡ new_share }
    {
        ShareGroup {
            weight: 1,
            living: 0,
            held: 0,
            admitted: Admitted::new(alloc),
            waiters: Waiters::new(alloc),
            waiting: 0,
        }
    }

    pub(crate) fn weight(&self) -> u64
        ensures is { result ≡ self.now.weight }
        ensures positive { 0 < self.now.weight }
    {
        self.weight
    }

    pub(crate) fn living(&self) -> usize
        ensures { result ≡ self.now.living }
    {
        self.living
    }

    pub(crate) fn held(&self) -> usize
        ensures { result ≡ held_of self.now }
    {
        self.held
    }

    pub(crate) fn waits(&self, number: u64) -> bool
        ensures { result ≡ is_some (map.get self.now.waiting number) }
    {
        self.waiters.has(number)
    }

    pub(crate) fn is_admitted(&self, number: u64) -> bool
        ensures { result ≡ is_some (map.get self.now.admitted number) }
    {
        self.admitted.has(number)
    }

    // Whether a number waits or was admitted.
    pub(crate) fn has(&self, number: u64) -> bool
        ensures { IsTrue result ↔ (IsWaiting self.now number ⊎ IsAdmitted self.now number) }
    {
        self.waits(number) || self.is_admitted(number)
    }

    // The number that waits longest.
    pub(crate) fn oldest(&self) -> Option<u64>
        ensures some { IfSome result (λ n. IsOldest self.now n) }
        ensures none { IfNone result (self.now.waiting ≡ map.empty) }
    {
        self.waiters.first()
    }

    // Its rank at a place, if someone waits.
    pub(crate) fn rank(&self, place: usize) -> Option<Rank>
        ensures some { IfSome result (λ r. IsRank place self.now r) }
        ensures none { IfNone result (self.now.waiting ≡ map.empty) }
    {
        match self.oldest() {
            Some(sequence) => Some(Rank {
                held: self.held(),
                weight: self.weight(),
                sequence,
                group: place,
            }),
            None => None,
        }
    }

    // Whether nothing is left of it.
    pub(crate) fn is_idle(&self) -> bool
        ensures { IsTrue result → self.now ≡ new_share }
    {
        if self.weight != 1 {
            return false;
        }
        if self.held != 0 {
            return false;
        }
        self.waiting == 0
    }

    pub(crate) fn take(&mut self)
        requires { held_of self.old + 1 < 2 ^ 64 }
        ensures { self.new ≡ taken self.old }
    {
        self.living += 1;
        self.held += 1;
    }

    // A number begins to wait.
    pub(crate) fn queue(&mut self, number: u64, waker: W) -> Result<(), W>
        requires { map.get self.old.waiting number ≡ None }
        ensures ok { OnOk result (self.new ≡ queued self.old number waker) }
        ensures back { IfErr result (λ w. w ≡ waker) }
        ensures err { OnErr result (self.new ≡ self.old) }
    {
        let Some(waiting) = self.waiting.checked_add(1) else {
            return Err(waker);
        };
        if self.admitted.reserve(waiting).is_err() {
            return Err(waker);
        }
        self.waiters.insert(number, waker)?;
        self.waiting = waiting;
        Ok(())
    }

    pub(crate) fn replace(&mut self, number: u64, waker: W)
        requires { IsWaiting self.old number }
        ensures { self.new ≡ queued self.old number waker }
    {
        self.waiters.replace(number, waker);
    }

    // A number waits no more, and its waker is handed out.
    pub(crate) fn leave(&mut self, number: u64) -> W
        requires { IsWaiting self.old number }
        ensures waker { map.get self.old.waiting number ≡ Some result }
        ensures is { self.new ≡ left self.old number }
    {
        let waker = self.waiters.remove(number);
        self.waiting -= 1;
        waker
    }

    // A number that waits is admitted, and its waker is told.
    pub(crate) fn admit(&mut self, number: u64) -> W
        requires waits { IsWaiting self.old number }
        requires apart { map.get self.old.admitted number ≡ None }
        requires fits { held_of self.old + 1 < 2 ^ 64 }
        ensures waker { map.get self.old.waiting number ≡ Some result }
        ensures is { self.new ≡ admitting self.old number }
    {
        let waker = self.waiters.remove(number);
        self.waiting -= 1;
        self.admitted.insert(number);
        self.held += 1;
        waker
    }

    pub(crate) fn ready(&mut self, number: u64)
        requires { IsAdmitted self.old number }
        ensures { self.new ≡ readied self.old number }
    {
        self.admitted.remove(number);
        self.living += 1;
    }

    pub(crate) fn give_up(&mut self, number: u64)
        requires { IsAdmitted self.old number }
        ensures { self.new ≡ given_up self.old number }
    {
        self.admitted.remove(number);
        self.held -= 1;
    }

    pub(crate) fn release(&mut self)
        requires { 0 < self.old.living }
        ensures { self.new ≡ released self.old }
    {
        self.living -= 1;
        self.held -= 1;
    }

    pub(crate) fn weigh(&mut self, weight: u64)
        requires { 0 < weight }
        ensures { self.new ≡ weighing self.old weight }
    {
        self.weight = weight;
    }
}
