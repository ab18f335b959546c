ghost use Rattle.std.specs.Prelude.{◌≡◌, ◌≢◌, ◌+◌, ◌-◌, ◌^◌, ◌<◌, ◌++◌, ℕ, [], Some, None, length, take, IfErr, OnOk, OnErr};
ghost use Rattle.mea_lines.specs.Lines.{event_of};
ghost use Rattle.mea_text.specs.Reply.{reply_text};
ghost use Rattle.mea_hall.specs.World.{empty_world, cause_of, step};

use mea_base::NoMemory;
use mea_events::Event;
use mea_family::Stop;
use mea_hall::Hall;
use mea_lines::event_of_line;
use mea_script::Machine;
use mea_text::put_reply;
use std::alloc::Global;

/// All families as the machine of scripts.
#[derive(Drop)]
pub struct PlayMachine {
    hall: Hall,
    // The wakers of the last event.
    wakes: Vec<u64>,
}

impl PlayMachine {
    /// Nothing was played. It takes no memory.
    pub fn new(alloc: Global) -> PlayMachine
        ensures { result.hall ≡ record { world = empty_world; wakes = []; events = 0 } }
    {
        PlayMachine {
            hall: Hall::new(alloc),
            wakes: Vec::new(alloc),
        }
    }
}

#[tactic(auto, unfolding(crate::specs::Script::hall_rules))]
impl Machine for PlayMachine {
    type Event = Event;

    ghost use Rattle.std.specs.Prelude.{◌≡◌, []};
    ghost use Rattle.mea_hall.specs.World.{World};
    ghost use Rattle.mea_run.specs.Script.{hall_rules};

    ghost State = { World };

    ghost state = { λ h. h.hall.world };

    ghost rules = { hall_rules };

    ghost stands_at = { λ h n. (h.hall.wakes ≡ []) × (h.hall.events ≡ n) };

    fn event_of_line(&self, line: &[u8]) -> Option<Event> {
        event_of_line(line)
    }

    #[inline(always)]
    fn play(&mut self, _number: u64, event: &Event, text: &mut Vec<u8>) -> Result<(), Stop> {
        play(&mut self.hall, &mut self.wakes, text, event)
    }

    fn finish(&mut self, _lines: u64, _text: &mut Vec<u8>) -> Result<(), NoMemory> {
        Ok(())
    }
}

// Plays an event and puts its reply.
#[inline(always)]
fn play(
    hall: &mut Hall,
    wakes: &mut Vec<u64>,
    text: &mut Vec<u8>,
    event: &Event,
) -> Result<(), Stop>
    requires few { hall.old.events < 2 ^ 64 - 1 }
    requires quiet { hall.old.wakes ≡ [] }
    ensures allowed { OnOk result (cause_of hall.old.world event.now ≡ None) }
    ensures hall { OnOk result (hall.new ≡ record { world = (step hall.old.world hall.old.events event.now).world; wakes = []; events = hall.old.events + 1 }) }
    ensures text { OnOk result (text.new.items ≡ text.old.items ++ reply_text (step hall.old.world hall.old.events event.now).reply.0 (step hall.old.world hall.old.events event.now).reply.1) }
    ensures refused { IfErr result (λ stop. stop ≢ Stop.NoMemory → cause_of hall.old.world event.now ≡ Some stop) }
    ensures err { OnErr result (text.new.items ≡ text.old.items) }
{
    let answer = hall.act(event)?;
    match take_wakes(hall, wakes) {
        Ok(()) => {}
        Err(_) => return Err(Stop::NoMemory),
    }
    match put_reply(text, &answer, wakes.as_slice()) {
        Ok(()) => Ok(()),
        Err(_) => Err(Stop::NoMemory),
    }
}

// Takes the wakers that are ready.
fn take_wakes(hall: &mut Hall, wakes: &mut Vec<u64>) -> Result<(), NoMemory>
    ensures hall { OnOk result (hall.new ≡ record hall.old { wakes = [] }) }
    ensures wakes { OnOk result (wakes.new.items ≡ hall.old.wakes) }
{
    wakes.clear();
    while let Some(waker) = hall.next_wake() {
        match wakes.push(waker) {
            Ok(()) => {}
            Err(_) => return Err(NoMemory),
        }
    }
    Ok(())
}
