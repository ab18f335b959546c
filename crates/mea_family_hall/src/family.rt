ghost use Rattle.std.specs.Prelude.{◌≡◌, ◌≢◌, ◌+◌, ◌≤◌, ◌⊎◌, OnOk, OnErr, IfOk, IfErr, None, Some};
ghost use Rattle.mea_family.specs.Play.{PartYields};

use mea_base::Ready;
use mea_family::{Reply, Stop};
use std::alloc::Global;

/// The objects of a family by name. It keeps no list of wakers: each event is lent the list into which it makes wakers
/// ready, in which those of other families may be too. `H` stands for the objects as the model has them.
pub trait Family<H>: Drop {
    type Event;

    ghost use Rattle.std.specs.Prelude.{ℕ, Option};
    ghost use Rattle.mea_family.specs.Family.{Outcome};
    ghost use Rattle.mea_family.specs.Play.{Part};
    ghost use Rattle.mea_family.specs.declared.stop.Stop.{Stop as Cause};

    // What is seen of it: its objects, and the least number that the next event may have.
    ghost part_of: { Self → Part H };

    ghost empty: { H };
    // How many wakers an event may still make ready.
    ghost registered: { H → ℕ };
    // What holds of the objects that events reach.
    ghost IsValid: { H → ℕ → Type 0 };

    ghost cause_of: { H → Self.Event → Option Cause };

    ghost step: { H → ℕ → Self.Event → Outcome H };

    ghost TakesNoMemory: { Self.Event → Type 0 };

    /// No object. It takes no memory.
    fn new(alloc: Global) -> Self
        ensures empty { part_of result ≡ record { hall = empty; next = 0 } }
        ensures none { registered empty ≡ 0 };

    /// What holds of all objects. It does nothing.
    fn is_valid(&self)
        ensures { IsValid (part_of self.now).hall (part_of self.now).next };

    /// Why an event would be refused, but for want of memory; None where it would not. It takes no memory.
    fn cause(&self, event: &Self::Event) -> Option<Stop>
        ensures is { result ≡ cause_of (part_of self.now).hall event.now }
        ensures not_memory { TakesNoMemory event.now → result ≢ Some Stop.NoMemory };

    /// Plays an event, under a number that is greater than each before; its wakers are appended to those that are ready. A
    /// cause for refusal comes before want of memory; where the event is refused, nothing has changed.
    fn act(
        &mut self,
        number: u64,
        event: &Self::Event,
        ready: &mut Ready<u64>,
    ) -> Result<Reply, Stop>
        requires next { (part_of self.old).next ≤ number }
        requires room { registered (part_of self.old).hall ≤ ready.old.registered }
        ensures played { IfOk result (λ answer. PartYields registered (part_of self.old) number (step (part_of self.old).hall number event.now) answer (part_of self.new) ready.old ready.new) }
        ensures grows { registered (part_of self.new).hall ≤ registered (part_of self.old).hall + 1 }
        ensures allowed { OnOk result (cause_of (part_of self.old).hall event.now ≡ None) }
        ensures refused { IfErr result (λ stop. (cause_of (part_of self.old).hall event.now ≡ Some stop) ⊎ ((cause_of (part_of self.old).hall event.now ≡ None) × (stop ≡ Stop.NoMemory))) }
        ensures no_memory { TakesNoMemory event.now → result ≢ Err Stop.NoMemory }
        ensures err { OnErr result ((self.new ≡ self.old) × (ready.new ≡ ready.old)) };
}
