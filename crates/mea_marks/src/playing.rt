ghost use Rattle.std.specs.Prelude.{◌≡◌, ◌≢◌, ◌+◌, ◌≤◌, ℕ, Some, None, IfErr, IfOk, OnOk};

use mea_events::Event;
use mea_family::{Answer, Stop};

/// A hall on which the events of a script are played, one after another.
pub trait Playing {
    ghost use Rattle.mea_marks.specs.Script.{Steps};

    /// What the definitions see of it.
    ghost State: { Type 0 };

    ghost state: { Self → State };

    /// What it makes of each event.
    ghost steps: { Steps State };

    /// Holds where it stands before the event of this number, counted from 0.
    ghost stands_at: { Self → ℕ → Type 0 };

    /// Plays the event of this number, and puts the wakers that it makes ready in place of those that are there. After
    /// an error nothing more is played.
    fn play(&mut self, number: u64, event: &Event, wakes: &mut Vec<u64>) -> Result<Answer, Stop>
        requires stands { stands_at self.old number }
        requires few { number ≤ 2000 }
        ensures allowed { OnOk result (steps.cause (state self.old) event.now ≡ None) }
        ensures next { OnOk result (state self.new ≡ steps.next (state self.old) number event.now) }
        ensures stands { OnOk result (stands_at self.new (number + 1)) }
        ensures answer { IfOk result (λ answer. answer ≡ (steps.reply (state self.old) number event.now).0) }
        ensures wakes { OnOk result (wakes.new.items ≡ (steps.reply (state self.old) number event.now).1) }
        ensures refused { IfErr result (λ stop. stop ≢ Stop.NoMemory → steps.cause (state self.old) event.now ≡ Some stop) };

    /// The free permits of the semaphore of this name, if there is one; no more than what a row shows.
    fn free_permits(&self, semaphore: u64) -> Option<u64>;
}
