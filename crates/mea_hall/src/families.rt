ghost use Rattle.std.specs.Prelude.{◌≡◌, ◌≢◌, ◌≤◌, ◌⊎◌, ℕ, None, Some, OnOk, OnErr, IfOk, IfErr};
ghost use Rattle.mea_hall.specs.World.{empty_world, IsValid, TakesNoMemory, cause_of, registered};
ghost use Rattle.mea_hall.specs.Families.{world_of, AreBelow, PlaysFamilies};

use mea_base::Ready;
use mea_chan::ChanFamily;
use mea_events::Event;
use mea_family::{Answer, Reply, Stop};
use mea_family_hall::Family;
use mea_lock::LockFamily;
use mea_meet::MeetFamily;
use mea_meet_model::validity_is_kept;
use mea_once::OnceFamily;
use mea_sem::SemFamily;
use mea_share::ShareFamily;
use std::alloc::Global;

/// All families of primitives. An event of one leaves the others as they are.
#[derive(Drop)]
pub struct Families {
    pub semaphores: SemFamily,
    pub meets: MeetFamily,
    pub locks: LockFamily,
    pub chans: ChanFamily,
    pub shares: ShareFamily,
    pub onces: OnceFamily,
}

impl Families {
    /// Families with nothing in them. It takes no memory.
    pub fn new(alloc: Global) -> Families
        ensures empty { world_of result ≡ empty_world }
        ensures below { AreBelow result 0 }
    {
        Families {
            semaphores: SemFamily::new(alloc),
            meets: MeetFamily::new(alloc),
            locks: LockFamily::new(alloc),
            chans: ChanFamily::new(alloc),
            shares: ShareFamily::new(alloc),
            onces: OnceFamily::new(alloc),
        }
    }

    /// What holds of all families, where n events were played. It does nothing.
    pub fn are_valid(&self)
        ensures { (n : ℕ) → AreBelow self.now n → IsValid (world_of self.now) n }
    {
        validity_is_kept();
        self.semaphores.is_valid();
        self.meets.is_valid();
        self.locks.is_valid();
        self.chans.is_valid();
        self.shares.is_valid();
        self.onces.is_valid();
    }

    /// Why an event would be refused, but for want of memory; None where it would not.
    #[tactic(auto, unfolding(crate::specs::World::cause_of))]
    pub fn cause(&self, event: &Event) -> Option<Stop>
        ensures { result ≡ cause_of (world_of self.now) event.now }
    {
        match event {
            Event::Sem(event) => self.semaphores.cause(event),
            Event::Meet(event) => self.meets.cause(event),
            Event::Lock(event) => self.locks.cause(event),
            Event::Chan(event) => self.chans.cause(event),
            Event::Share(event) => self.shares.cause(event),
            Event::Once(event) => self.onces.cause(event),
        }
    }

    /// Plays an event on its family, which is lent the list of ready wakers. Where it is refused, nothing has changed.
    #[inline(always)]
    #[tactic(auto, unfolding(crate::specs::World::cause_of, crate::specs::World::TakesNoMemory))]
    pub fn act(
        &mut self,
        number: u64,
        event: &Event,
        ready: &mut Ready<u64>,
    ) -> Result<Answer, Stop>
        requires next { AreBelow self.old number }
        requires room { registered (world_of self.old) ≤ ready.old.registered }
        ensures played { IfOk result (λ answer. PlaysFamilies self.old number event.now answer self.new ready.old ready.new) }
        ensures allowed { OnOk result (cause_of (world_of self.old) event.now ≡ None) }
        ensures refused { IfErr result (λ stop. (cause_of (world_of self.old) event.now ≡ Some stop)
            ⊎ ((cause_of (world_of self.old) event.now ≡ None) × (stop ≡ Stop.NoMemory))) }
        ensures no_memory { TakesNoMemory event.now → result ≢ Err Stop.NoMemory }
        ensures err { OnErr result ((self.new ≡ self.old) × (ready.new ≡ ready.old)) }
    {
        match event {
            Event::Sem(event) => self.semaphores.act(number, event, ready),
            Event::Meet(event) => answered(self.meets.act(number, event, ready)),
            Event::Lock(event) => answered(self.locks.act(number, event, ready)),
            Event::Chan(event) => answered(self.chans.act(number, event, ready)),
            Event::Share(event) => answered(self.shares.act(number, event, ready)),
            Event::Once(event) => answered(self.onces.act(number, event, ready)),
        }
    }
}

// What the hall of a family replied, as an answer.
#[inline(always)]
fn answered(replied: Result<Reply, Stop>) -> Result<Answer, Stop>
    ensures { result ≡ replied }
{
    match replied {
        Ok(reply) => Ok(reply.into_answer()),
        Err(stop) => Err(stop),
    }
}
