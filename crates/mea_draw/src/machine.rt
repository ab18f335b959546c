ghost use Rattle.std.specs.Prelude.{◌≡◌, ◌≢◌, ◌+◌, ◌-◌, ◌^◌, ◌<◌, ◌++◌, ℕ, [], Some, None, IfErr, IfOk, OnOk};
ghost use Rattle.mea_hall.specs.World.{empty_world, cause_of, step};

use mea_base::NoMemory;
use mea_events::Event;
use mea_family::{Answer, Stop};
use mea_hall::Hall;
use mea_marks::Playing;
use std::alloc::Global;

/// All families, whose events are drawn.
#[derive(Drop)]
pub struct DrawMachine {
    hall: Hall,
}

impl DrawMachine {
    /// Nothing was played. It takes no memory.
    pub fn new(alloc: Global) -> DrawMachine
        ensures { result.hall ≡ record { world = empty_world; wakes = []; events = 0 } }
    {
        DrawMachine {
            hall: Hall::new(alloc),
        }
    }
}

#[tactic(auto, unfolding(crate::specs::Drawing::hall_steps))]
impl Playing for DrawMachine {
    ghost use Rattle.std.specs.Prelude.{◌≡◌, []};
    ghost use Rattle.mea_hall.specs.World.{World};
    ghost use Rattle.mea_draw.specs.Drawing.{hall_steps};

    ghost State = { World };

    ghost state = { λ h. h.hall.world };

    ghost steps = { hall_steps };

    ghost stands_at = { λ h n. (h.hall.wakes ≡ []) × (h.hall.events ≡ n) };

    fn play(&mut self, _number: u64, event: &Event, wakes: &mut Vec<u64>) -> Result<Answer, Stop> {
        play(&mut self.hall, wakes, event)
    }

    fn free_permits(&self, semaphore: u64) -> Option<u64> {
        let core = self.hall.semaphores().core(semaphore)?;
        Some(core.available_permits() as u64)
    }
}

// Plays an event, and takes the wakers that it makes ready.
fn play(hall: &mut Hall, wakes: &mut Vec<u64>, event: &Event) -> Result<Answer, Stop>
    requires few { hall.old.events < 2 ^ 64 - 1 }
    requires quiet { hall.old.wakes ≡ [] }
    ensures allowed { OnOk result (cause_of hall.old.world event.now ≡ None) }
    ensures hall { OnOk result (hall.new ≡ record { world = (step hall.old.world hall.old.events event.now).world; wakes = []; events = hall.old.events + 1 }) }
    ensures answer { IfOk result (λ answer. answer ≡ (step hall.old.world hall.old.events event.now).reply.0) }
    ensures wakes { OnOk result (wakes.new.items ≡ (step hall.old.world hall.old.events event.now).reply.1) }
    ensures refused { IfErr result (λ stop. stop ≢ Stop.NoMemory → cause_of hall.old.world event.now ≡ Some stop) }
{
    let answer = hall.act(event)?;
    match take_wakes(hall, wakes) {
        Ok(()) => Ok(answer),
        Err(_) => Err(Stop::NoMemory),
    }
}

// Takes the wakers that are ready.
fn take_wakes(hall: &mut Hall, wakes: &mut Vec<u64>) -> Result<(), NoMemory>
    ensures hall { OnOk result (hall.new ≡ record hall.old { wakes = [] }) }
    ensures wakes { OnOk result (wakes.new.items ≡ hall.old.wakes) }
{
    wakes.clear();
    while let Some(waker) = hall.next_wake() {
        match wakes.push(waker) {
            Ok(()) => {}
            Err(_) => return Err(NoMemory),
        }
    }
    Ok(())
}
