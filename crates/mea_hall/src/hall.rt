ghost use Rattle.std.specs.Prelude.{◌≡◌, ◌≢◌, ◌-◌, ◌^◌, ◌<◌, ◌≤◌, ◌∷◌, [], ◌⊎◌, length, None, Some, OnOk, OnErr, IfOk, IfErr, IfSome, IfNone};
ghost use Rattle.mea_hall.specs.World.{empty_world, Play, Plays, OthersStay, IsValid, TakesNoMemory, cause_of, registered};

use crate::families::Families;
use mea_base::Ready;
use mea_chan::ChanFamily;
use mea_events::Event;
use mea_family::{Answer, Stop};
use mea_lock::LockFamily;
use mea_meet::MeetFamily;
use mea_once::OnceFamily;
use mea_sem::SemFamily;
use mea_share::ShareFamily;
use std::alloc::Global;
use std::marker::Model;

/// All families of primitives, with one list of the wakers that they have made ready, and how many events were played on
/// them. Each event is played on its own family, which is lent the list, under its number, by which later events name what
/// it made.
pub struct Hall {
    families: Families,
    // It counts each waker that is registered in a family, and so has room for it.
    ready: Ready<u64>,
    events: u64,
}

impl Model for Hall {
    ghost use Rattle.std.specs.Prelude.{◌≡◌, ◌<◌, ◌≤◌, ◌^◌};
    ghost use Rattle.mea_hall.specs.World.{Play, play_code, registered};
    ghost use Rattle.mea_hall.specs.Families.{world_of, AreBelow};

    ghost Value = { Play };

    ghost coded = { play_code };

    ghost view = { λ a. record { world = world_of a.families; wakes = a.ready.wakers; events = a.events } };

    ghost invariant = { λ a. record {
      fits : a.events < 2 ^ 64;
      below : AreBelow a.families a.events;
      counted : a.ready.registered ≡ registered (world_of a.families);
      few : a.ready.registered ≤ a.events;
    } };
}

// Written out: a derived one is proved anew in each crate that hands a value of this type to a generic function.
impl Drop for Hall {
    fn drop(self) {
        let Hall {
            families: _,
            ready: _,
            events: _,
        } = self;
    }
}

impl Hall {
    /// A hall with nothing in it. It takes no memory.
    pub fn new(alloc: Global) -> Hall
        ensures { result ≡ record { world = empty_world; wakes = []; events = 0 } }
    {
        Hall {
            families: Families::new(alloc),
            ready: Ready::new(alloc),
            events: 0,
        }
    }

    /// How many events were played, which is the number of the next one. It takes no memory.
    pub fn events(&self) -> u64
        ensures { result ≡ self.now.events }
    {
        self.events
    }

    /// Why an event would be refused; None where it would not. It takes no memory.
    pub fn cause(&self, event: &Event) -> Option<Stop>
        ensures { result ≡ cause_of self.now.world event.now }
    {
        self.families.cause(event)
    }

    /// Plays the next event, and makes the wakers ready that it wakes. A cause for refusal comes before want
    /// of memory.
    #[inline(always)]
    pub fn act(&mut self, event: &Event) -> Result<Answer, Stop>
        requires { self.old.events < 2 ^ 64 - 1 }
        ensures played { IfOk result (λ answer. Plays self.old event.now answer self.new) }
        ensures alone { OnOk result (OthersStay event.now self.old.world self.new.world) }
        ensures allowed { OnOk result (cause_of self.old.world event.now ≡ None) }
        ensures refused { IfErr result (λ stop. (cause_of self.old.world event.now ≡ Some stop)
            ⊎ ((cause_of self.old.world event.now ≡ None) × (stop ≡ Stop.NoMemory))) }
        ensures no_memory { TakesNoMemory event.now → result ≢ Err Stop.NoMemory }
        ensures err { OnErr result (self.new ≡ self.old) }
    {
        let answer = self.families.act(self.events, event, &mut self.ready)?;
        self.events += 1;
        Ok(answer)
    }

    /// How many wakers an event may still make ready, so that room for them can be made before it is played:
    /// those of futures that wait, and those that futures have left registered when they ended. It takes no
    /// memory.
    pub fn registered(&self) -> usize
        ensures count { result ≡ registered self.now.world }
        ensures few { result ≤ self.now.events }
        ensures valid { IsValid self.now.world self.now.events }
    {
        self.families.are_valid();
        self.ready.registered()
    }

    /// How many wakers are ready. It takes no memory.
    pub fn wakes_ready(&self) -> usize
        ensures { result ≡ length self.now.wakes }
    {
        self.ready.len()
    }

    /// Takes the first waker that is ready. It takes no memory.
    pub fn next_wake(&mut self) -> Option<u64>
        ensures some { IfSome result (λ waker. self.old ≡ record self.new { wakes = waker ∷ self.new.wakes }) }
        ensures none { IfNone result ((self.old.wakes ≡ []) × (self.new ≡ self.old)) }
    {
        self.ready.pop()
    }

    /// The semaphores. It takes no memory.
    pub fn semaphores(&self) -> &SemFamily
        ensures { result.now.hall ≡ self.now.world.semaphores }
    {
        &self.families.semaphores
    }

    /// The meeting points. It takes no memory.
    pub fn meets(&self) -> &MeetFamily
        ensures { result.now.hall ≡ self.now.world.meets }
    {
        &self.families.meets
    }

    /// The channels and boxes. It takes no memory.
    pub fn chans(&self) -> &ChanFamily
        ensures { result.now.hall ≡ self.now.world.chans }
    {
        &self.families.chans
    }

    /// The fair admissions. It takes no memory.
    pub fn shares(&self) -> &ShareFamily
        ensures { result.now.hall ≡ self.now.world.shares }
    {
        &self.families.shares
    }

    /// The calls that run once, the cells, maps and groups. It takes no memory.
    pub fn onces(&self) -> &OnceFamily
        ensures { result.now.hall ≡ self.now.world.onces }
    {
        &self.families.onces
    }

    /// The locks and condition variables. It takes no memory.
    pub fn locks(&self) -> &LockFamily
        ensures { result.now.hall ≡ self.now.world.locks }
    {
        &self.families.locks
    }
}
