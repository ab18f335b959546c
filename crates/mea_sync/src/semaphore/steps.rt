//! The steps of a semaphore's core that are made under its lock. Each tells how many wakers it made ready,
//! so that as many are woken once the lock is free.
ghost use Rattle.std.specs.Prelude.{◌≡◌, ◌+◌, ◌-◌, ◌<◌, ◌≤◌, ◌↔◌, length, true, false, IsErr, IfErr, OnOk, OnErr};
ghost use Rattle.mea_sem_core.specs.Core.{held_of, poured, closed_core};
ghost use Rattle.mea_sem_core.specs.Calls.{Belongs, Cancels, PollsOpen, given_back};
ghost use Rattle.mea_sem_core.specs.Acquire.{demand_of, renewed};
ghost use Rattle.mea_sync.specs.Forgets.{ForgetsGranted, LosesGranted};

use mea_base::{NoMemory, Overflow};
use mea_sem_core::{Acquire, OpenTurn, SemCore};

// Adds permits.
pub(super) fn release<W: Drop>(core: &mut SemCore<W>, n: usize) -> (Result<(), Overflow>, usize)
    ensures overflow { IsErr result.0 ↔ (usize.MAX < core.old.live + n) }
    ensures ok { OnOk result.0 (core.new ≡ poured core.old n) }
    ensures err { OnErr result.0 (core.new ≡ core.old) }
    ensures some { OnErr result.0 (0 < n) }
    ensures made { result.1 ≡ length core.new.wakes - length core.old.wakes }
{
    let before = core.wakes_ready();
    let answer = core.release(n);
    (answer, core.wakes_ready().saturating_sub(before))
}

// Takes held permits back.
pub(super) fn give_back<W: Drop>(core: &mut SemCore<W>, n: usize) -> usize
    ensures allowed { n ≤ held_of core.old → core.new ≡ given_back core.old n }
    ensures refused { held_of core.old < n → core.new ≡ core.old }
    ensures made { result ≡ length core.new.wakes - length core.old.wakes }
{
    let before = core.wakes_ready();
    core.give_back_checked(n);
    core.wakes_ready().saturating_sub(before)
}

// Ends a wait.
pub(super) fn cancel<W: Drop>(core: &mut SemCore<W>, wait: Acquire) -> usize
    ensures allowed { Belongs core.old wait → Cancels core.old wait core.new }
    ensures refused { ¬ Belongs core.old wait → core.new ≡ core.old }
    ensures made { result ≡ length core.new.wakes - length core.old.wakes }
{
    let before = core.wakes_ready();
    core.cancel_checked(wait);
    core.wakes_ready().saturating_sub(before)
}

// Closes the semaphore.
pub(super) fn close<W: Drop>(core: &mut SemCore<W>) -> usize
    ensures closes { core.new ≡ closed_core core.old }
    ensures made { result ≡ length core.new.wakes - length core.old.wakes }
{
    let before = core.wakes_ready();
    core.close();
    core.wakes_ready().saturating_sub(before)
}

// Takes permits of an open semaphore if they are free, for ever.
pub(super) fn take_and_lose<W: Drop>(core: &mut SemCore<W>, n: usize) -> bool
    ensures taken { core.old.closed ≡ false → n ≤ core.old.free → (result ≡ true) × (core.new ≡ record core.old { free = core.old.free - n; live = core.old.live - n }) }
    ensures refused { core.old.free < n → (result ≡ false) × (core.new ≡ core.old) }
    ensures closed { core.old.closed ≡ true → (result ≡ false) × (core.new ≡ core.old) }
{
    let taken = core.try_acquire(n);
    if taken {
        core.lose_checked(n);
    }
    taken
}

// Polls an acquire, which asks for as many permits after it as before.
#[tactic(auto, using(crate::proofs::Demands::keeps_demand))]
pub(super) fn poll<W: Drop>(
    core: &mut SemCore<W>,
    place: &mut Acquire,
    waker: W,
) -> Result<OpenTurn<W>, (W, NoMemory)>
    ensures allowed { Belongs core.old place.old → PollsOpen core.old place.old waker result core.new place.new }
    ensures renewed { ¬ Belongs core.old place.old → PollsOpen core.old (renewed place.old) waker result core.new place.new }
    ensures demand { demand_of place.new ≡ demand_of place.old }
    ensures waker { IfErr result (λ e. e.0 ≡ waker) }
{
    if !core.poll_allowed(place) {
        place.renew();
    }
    core.poll_open(place, waker)
}

// Polls an acquire whose permits are lost in the same step in which it is ready.
pub(super) fn poll_to_forget<W: Drop>(
    core: &mut SemCore<W>,
    permits: usize,
    place: &mut Acquire,
    waker: W,
) -> Result<OpenTurn<W>, (W, NoMemory)>
    ensures allowed { Belongs core.old place.old → ForgetsGranted core.old place.old permits waker result core.new place.new }
    ensures renewed { ¬ Belongs core.old place.old → ForgetsGranted core.old (renewed place.old) permits waker result core.new place.new }
    ensures demand { demand_of place.new ≡ demand_of place.old }
    ensures waker { IfErr result (λ e. e.0 ≡ waker) }
{
    let answer = poll(core, place, waker);
    lose_granted(core, &answer, permits);
    answer
}

// Loses what a poll has granted.
fn lose_granted<W: Drop>(
    core: &mut SemCore<W>,
    answer: &Result<OpenTurn<W>, (W, NoMemory)>,
    permits: usize,
)
    ensures { LosesGranted answer.now permits core.old core.new }
{
    if let Ok(OpenTurn::Ready(_)) = answer {
        core.lose_checked(permits);
    }
}
