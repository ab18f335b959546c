ghost use Rattle.std.specs.Prelude.{◌≡◌, ◌++◌, ◌<◌, ◌≤◌, ℕ, List, [], length, nat_lt, Some, None, IfSome, IfOk, OnOk, IsTrue, ◌↔◌};
ghost use Rattle.mea_script.specs.Begun.{Keeps};
ghost use Rattle.mea_script.specs.Rules.{event_at, IsEvent};

use crate::machine::Machine;
use mea_base::NoMemory;
use mea_text::put_text;
use std::alloc::Global;

/// How many bytes of a line are kept. A line that has more is no event line.
pub const MOST: usize = 96;

/// A line that has begun and whose end has not come.
#[derive(Drop)]
pub struct Begun {
    // Its first bytes.
    kept: Vec<u8>,
    // Whether it has more.
    is_long: bool,
}

impl Begun {
    /// A line with no bytes. It takes no memory.
    pub fn new(alloc: Global) -> Begun
        ensures { Keeps result [] }
    {
        Begun {
            kept: Vec::new(alloc),
            is_long: false,
        }
    }

    /// Whether it has no bytes. It takes no memory.
    pub fn is_empty(&self) -> bool
        ensures { (line : List ℕ) → Keeps self.now line → IsTrue result ↔ (line ≡ []) }
    {
        self.kept.is_empty()
    }

    /// The line goes on with these bytes.
    pub fn add(&mut self, bytes: &[u8]) -> Result<(), NoMemory>
        ensures { OnOk result ((line : List ℕ) → Keeps self.old line → Keeps self.new (line ++ bytes.now)) }
    {
        let room = MOST.saturating_sub(self.kept.len());
        if bytes.len() > room {
            self.is_long = true;
        }
        put_text(&mut self.kept, &bytes[..bytes.len().min(room)])
    }

    /// The event of the line that ends with these bytes, if it stands for one. The next line has no bytes.
    pub fn finish<M: Machine>(
        &mut self,
        machine: &M,
        end: &[u8],
    ) -> Result<Option<M::Event>, NoMemory>
        ensures event { IfOk result (λ event. (line : List ℕ) → Keeps self.old line → event ≡ event_at M.rules (M.state machine.now) (line ++ end.now)) }
        ensures spelled { IfOk result (λ event. IfSome event (IsEvent M.rules (M.state machine.now))) }
        ensures next { OnOk result ((line : List ℕ) → Keeps self.old line → Keeps self.new []) }
    {
        self.add(end)?;
        let event = self.event(machine);
        self.kept.clear();
        self.is_long = false;
        Ok(event)
    }

    // The event of the line as it stands.
    fn event<M: Machine>(&self, machine: &M) -> Option<M::Event>
        ensures event { (line : List ℕ) → Keeps self.now line → result ≡ event_at M.rules (M.state machine.now) line }
        ensures spelled { IfSome result (IsEvent M.rules (M.state machine.now)) }
    {
        if self.is_long {
            None
        } else {
            machine.event_of_line(self.kept.as_slice())
        }
    }
}
