use mea_base::NoMemory;
use mea_family::Stop;
use mea_script::Machine;
use mea_text::put_line;

/// What a line of a script of doors stands for.
#[derive(Clone, Copy, Debug, Drop)]
pub enum DoorEvent {
    Open,
    Shut,
}

/// How many doors are open.
#[derive(Drop)]
pub struct Doors {
    pub opened: u64,
}

impl Machine for Doors {
    type Event = DoorEvent;

    ghost use Rattle.std.specs.Prelude.{ℕ, ◌≤◌};
    ghost use Rattle.mea_script_tests.specs.Doors.{door_rules};

    ghost State = { ℕ };

    ghost state = { λ d. d.opened };

    ghost rules = { door_rules };

    ghost stands_at = { λ d n. d.opened ≤ n };

    fn event_of_line(&self, line: &[u8]) -> Option<DoorEvent> {
        if line == b"open".as_slice() {
            Some(DoorEvent::Open)
        } else if line == b"shut".as_slice() && self.opened > 0 {
            Some(DoorEvent::Shut)
        } else {
            None
        }
    }

    fn play(&mut self, _number: u64, event: &DoorEvent, text: &mut Vec<u8>) -> Result<(), Stop> {
        match event {
            DoorEvent::Open => self.opened += 1,
            DoorEvent::Shut => self.opened -= 1,
        }
        put_line(text, b"open", self.opened)?;
        Ok(())
    }

    fn finish(&mut self, _lines: u64, text: &mut Vec<u8>) -> Result<(), NoMemory> {
        put_line(text, b"left", self.opened)
    }
}
