ghost use Rattle.std.specs.Prelude.{◌≡◌, ◌≢◌, ◌≤◌, ◌∷◌, [], ◌⊎◌, length, OnOk, OnErr, IfOk, IfErr, IfSome, IfNone, None, Some};
ghost use Rattle.mea_family.specs.Play.{Play, Yields};

use crate::family::Family;
use mea_base::Ready;
use mea_family::{Reply, Stop};
use std::alloc::Global;
use std::marker::{Model, PhantomData};

/// The objects of a family, each by the number of the event that made it, and the wakers that they have made ready.
///
/// Each event costs what its family says, and the wakers that it makes ready.
pub struct FamilyHall<F: Family<H>, H> {
    family: F,
    ready: Ready<u64>,
    model: PhantomData<H>,
}

impl<F: Family<H>, H> Model for FamilyHall<F, H> {
    ghost use Rattle.std.specs.Prelude.{◌≡◌, ◌≤◌};
    ghost use Rattle.mea_family.specs.Play.{Play, play_code};

    ghost Value = { Play H };

    ghost coded = { play_code H.code };

    ghost view = { λ a. record { hall = (F.part_of a.family).hall; wakes = a.ready.wakers; next = (F.part_of a.family).next } };

    ghost invariant = { λ a. record {
      counted : a.ready.registered ≡ F.registered (F.part_of a.family).hall;
      few : a.ready.registered ≤ (F.part_of a.family).next;
    } };
}

// Written out: a derived one is proved anew in each crate that hands a value of this type to a generic function.
impl<F: Family<H>, H> Drop for FamilyHall<F, H> {
    fn drop(self) {
        let FamilyHall {
            family: _,
            ready: _,
            model: _,
        } = self;
    }
}

impl<F: Family<H>, H> FamilyHall<F, H> {
    /// A hall with nothing in it. It takes no memory.
    pub fn new(alloc: Global) -> Self
        ensures { result ≡ record { hall = F.empty; wakes = []; next = 0 } }
    {
        FamilyHall {
            family: F::new(alloc),
            ready: Ready::new(alloc),
            model: PhantomData,
        }
    }

    /// Its objects, which lend their cores by name. It takes no memory.
    pub fn family(&self) -> &F
        ensures hall { (F.part_of result.now).hall ≡ self.now.hall }
        ensures next { (F.part_of result.now).next ≡ self.now.next }
    {
        &self.family
    }

    /// How many wakers are ready. It takes no memory.
    pub fn wakes_ready(&self) -> usize
        ensures { result ≡ length self.now.wakes }
    {
        self.ready.len()
    }

    /// Takes the first waker that is ready. It takes no memory.
    pub fn next_wake(&mut self) -> Option<u64>
        ensures some { IfSome result (λ waker. self.old ≡ record self.new { wakes = waker ∷ self.new.wakes }) }
        ensures none { IfNone result ((self.old.wakes ≡ []) × (self.new ≡ self.old)) }
    {
        self.ready.pop()
    }

    /// How many wakers an event may still make ready. It takes no memory.
    pub fn registered(&self) -> usize
        ensures count { result ≡ F.registered self.now.hall }
        ensures few { result ≤ self.now.next }
        ensures valid { F.IsValid self.now.hall self.now.next }
    {
        self.family.is_valid();
        self.ready.registered()
    }

    /// Why the event would be refused, but for want of memory; None where it would not. It takes no memory.
    pub fn cause(&self, event: &F::Event) -> Option<Stop>
        ensures { result ≡ F.cause_of self.now.hall event.now }
    {
        self.family.cause(event)
    }

    /// Plays an event, whose number is greater than each that was played before; the wakers that it makes ready are
    /// appended to those that are. A cause for refusal comes before want of memory; where the event is refused,
    /// nothing has changed.
    pub fn act(&mut self, number: u64, event: &F::Event) -> Result<Reply, Stop>
        requires { self.old.next ≤ number }
        ensures played { IfOk result (λ reply. Yields self.old number (F.step self.old.hall number event.now) reply self.new) }
        ensures allowed { OnOk result (F.cause_of self.old.hall event.now ≡ None) }
        ensures refused { IfErr result (λ stop. (F.cause_of self.old.hall event.now ≡ Some stop) ⊎ ((F.cause_of self.old.hall event.now ≡ None) × (stop ≡ Stop.NoMemory))) }
        ensures valid { OnOk result (F.IsValid self.new.hall self.new.next) }
        ensures no_memory { F.TakesNoMemory event.now → result ≢ Err Stop.NoMemory }
        ensures err { OnErr result (self.new ≡ self.old) }
    {
        let reply = self.family.act(number, event, &mut self.ready)?;
        self.family.is_valid();
        Ok(reply)
    }
}
