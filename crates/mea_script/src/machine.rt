ghost use Rattle.std.specs.Prelude.{◌≡◌, ◌≢◌, ◌+◌, ◌≤◌, ◌++◌, ℕ, Some, None, length, take, IfErr, OnOk};
ghost use Rattle.mea_script.specs.Lines.{limit};

use mea_base::NoMemory;
use mea_family::Stop;

/// What plays the lines of a script, one after another.
pub trait Machine {
    type Event: Drop;

    ghost use Rattle.mea_script.specs.Rules.{Rules, IsEvent};

    /// What the definitions see of it.
    ghost State: { Type 0 };

    ghost state: { Self → State };

    /// What it makes of each line.
    ghost rules: { Rules State Self.Event };

    /// Holds where it stands before the line of this number, counted from 0.
    ghost stands_at: { Self → ℕ → Type 0 };

    /// The event of a line of at most 96 bytes, without its newline, if it is an event line.
    fn event_of_line(&self, line: &[u8]) -> Option<Self::Event>
        ensures { result ≡ rules.event (state self.now) line.now };

    /// Plays the event of the line of this number, and appends its reply. An error leaves the text, or a front of the
    /// reply after it, and the script ends there.
    fn play(&mut self, number: u64, event: &Self::Event, text: &mut Vec<u8>) -> Result<(), Stop>
        requires stands { stands_at self.old number }
        requires spelled { IsEvent rules (state self.old) event.now }
        requires few { number ≤ limit }
        ensures allowed { OnOk result (rules.cause (state self.old) event.now ≡ None) }
        ensures next { OnOk result (state self.new ≡ rules.next (state self.old) number event.now) }
        ensures stands { OnOk result (stands_at self.new (number + 1)) }
        ensures text { OnOk result (text.new.items ≡ text.old.items ++ rules.reply (state self.old) number event.now) }
        ensures refused { IfErr result (λ stop. stop ≢ Stop.NoMemory → rules.cause (state self.old) event.now ≡ Some stop) }
        ensures kept { take (length text.old.items) text.new.items ≡ text.old.items };

    /// Appends the text at the end of the input, after so many lines, or some of it.
    fn finish(&mut self, lines: u64, text: &mut Vec<u8>) -> Result<(), NoMemory>
        requires stands { stands_at self.old lines }
        requires few { lines ≤ limit + 1 }
        ensures text { OnOk result (text.new.items ≡ text.old.items ++ rules.last (state self.old) lines) }
        ensures kept { take (length text.old.items) text.new.items ≡ text.old.items };
}
