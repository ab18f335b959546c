ghost use Rattle.std.specs.Prelude.{◌≡◌, ◌≢◌, ◌+◌, ◌<◌, ◌≤◌, ◌++◌, ◌∷◌, ◌⊎◌, ℕ, Bool, List, [], Some, None, false, true, length, IfSome, IfErr, OnOk, OnErr};
ghost use Rattle.std.specs.Result.{result_err};
ghost use Rattle.mea_family.specs.declared.stop.Stop.{Stop as Why};
ghost use Rattle.mea_io.specs.Bytes.{Rose, HasWritten, HasWrittenPart};
ghost use Rattle.mea_script.specs.Begun.{Keeps};
ghost use Rattle.mea_script.specs.Lines.{limit, IsUnended, lines_ended};
ghost use Rattle.mea_script.specs.Player.{due, due_from, GoesOn, Stops, Ends, IsNoTransfer};
ghost use Rattle.mea_script.specs.Rules.{event_at, IsEvent};
ghost use Rattle.mea_script.specs.Runs.{IsFault, IsOfRules, line_of};
ghost use Rattle.mea_script.specs.Told.{ending, told_line, told_from, with_text};

use crate::begun::{Begun, MOST};
use crate::ending::put_ending;
use crate::machine::Machine;
use crate::status::Status;
use crate::transfer::write_last;
use mea_base::NoMemory;
use mea_family::Stop;
use mea_io::{PutFault, Sink, write_text};
use mea_text::cut_line;
use std::alloc::Global;

/// How many bytes of text are kept before they are written.
const FULL: usize = 65_536;

/// Plays the lines of a script on a machine as they come, and keeps the text of their replies until it is written.
#[derive(Drop)]
pub struct Player {
    // The line whose end has not come.
    begun: Begun,
    // How many lines were played.
    lines: u64,
    // What is told and not yet written.
    text: Vec<u8>,
}

impl Player {
    /// Nothing was played. It takes no memory.
    pub fn new(alloc: Global) -> Player
        ensures begun { Keeps result.begun [] }
        ensures lines { result.lines ≡ 0 }
        ensures text { result.text.items ≡ [] }
    {
        Player {
            begun: Begun::new(alloc),
            lines: 0,
            text: Vec::new(alloc),
        }
    }

    /// Plays the lines that end in this piece, and writes the text of their replies. An error is how the script
    /// ends; of its text only what is kept is not yet written.
    pub fn play<M: Machine, K: Sink>(
        &mut self,
        machine: &mut M,
        piece: &[u8],
        sink: &mut K,
    ) -> Result<(), Status>
        requires few { self.old.lines + length piece.now ≤ limit }
        requires stands { M.stands_at machine.old self.old.lines }
        ensures few { OnOk result (self.new.lines ≤ self.old.lines + length piece.now) }
        ensures stands { OnOk result (M.stands_at machine.new self.new.lines) }
        ensures counted { OnOk result (self.new.lines ≡ self.old.lines + lines_ended piece.now) }
        ensures kept { OnOk result (self.new.text.items ≡ []) }
        ensures line { IfErr result (λ status. (n : ℕ) → line_of status ≡ Some n → self.old.lines ≤ n) }
        ensures goes_on { OnOk result ((line bytes : List ℕ) (room : ℕ) → Keeps self.old.begun line → IsUnended line
            → (next : List ℕ) × Keeps self.new.begun next × IsUnended next
            × GoesOn (due M.rules (M.state machine.old) self.old (length line + (length piece.now + room)) (line ++ (piece.now ++ bytes)))
            (due M.rules (M.state machine.new) self.new (length next + room) (next ++ bytes)) (K.taken sink.old) (K.taken sink.new)) }
        ensures status { IfErr result (λ status. (line bytes : List ℕ) (room : ℕ) → Keeps self.old.begun line → IsUnended line
            → IsFault status ⊎ (status ≡ (due M.rules (M.state machine.old) self.old (length line + (length piece.now + room)) (line ++ (piece.now ++ bytes))).status)) }
        ensures text { IfErr result (λ status. (line bytes before : List ℕ) (room : ℕ) → Keeps self.old.begun line → IsUnended line → K.taken sink.old ≡ Some before
            → Ends status (due M.rules (M.state machine.old) self.old (length line + (length piece.now + room)) (line ++ (piece.now ++ bytes))).text before (K.taken sink.new) self.new.text.items) }
        ensures rules { IfErr result (IsOfRules M.rules) }
        ensures read_fault { result ≢ Err Status.ReadFault }
        ensures write_fault { result ≡ Err Status.WriteFault → Rose (K.faults sink.old) (K.faults sink.new) }
        ensures faults { K.faults sink.old ≤ K.faults sink.new }
    {
        let mut rest = piece;
        while let Some((end, after)) = cut_line(rest) {
            self.play_line(machine, end)?;
            self.write_full(sink)?;
            rest = after;
        }
        self.write_kept(sink)?;
        match self.begun.add(rest) {
            Ok(()) => Ok(()),
            Err(_) => Err(Status::NoMemory),
        }
    }

    /// Plays the last line, if one has begun, and tells that the script is at its end.
    pub fn finish<M: Machine>(&mut self, machine: &mut M) -> Status
        requires few { self.old.lines ≤ limit }
        requires stands { M.stands_at machine.old self.old.lines }
        ensures stops { (line : List ℕ) (room : ℕ) → Keeps self.old.begun line → IsUnended line → length line ≤ room
            → Stops result (due M.rules (M.state machine.old) self.old room line) self.new.text.items }
        ensures line { (n : ℕ) → line_of result ≡ Some n → self.old.lines ≤ n }
        ensures rules { IsOfRules M.rules result }
        ensures transfer { IsNoTransfer result }
    {
        if !self.begun.is_empty() {
            match self.play_line(machine, b"") {
                Ok(()) => {}
                Err(status) => return status,
            }
        }
        self.end_input(machine)
    }

    /// Tells that the script is too long.
    pub fn cut_off<M: Machine>(&mut self, machine: &M) -> Status
        ensures stops { (line bytes : List ℕ) → IsUnended line → 0 < length bytes
            → Stops result (due M.rules (M.state machine.now) self.old (length line) (line ++ bytes)) self.new.text.items }
        ensures line { (n : ℕ) → line_of result ≡ Some n → self.old.lines ≤ n }
        ensures rules { IsOfRules M.rules result }
        ensures transfer { IsNoTransfer result }
    {
        self.end(Ok(()), false, true)
    }

    /// Writes what is not yet written, and answers how the run ended.
    pub fn close<K: Sink>(self, sink: &mut K, status: Status) -> Status
        ensures told { (whole before : List ℕ) → Ends status whole before (K.taken sink.old) self.text.items
            → (IsFault result × HasWrittenPart whole before (K.taken sink.new)) ⊎ ((result ≡ status) × HasWritten whole before (K.taken sink.new)) }
        ensures same { IsFault result ⊎ (result ≡ status) }
        ensures read_fault { result ≡ Status.ReadFault → status ≡ Status.ReadFault }
        ensures write_fault { result ≡ Status.WriteFault → (status ≡ Status.WriteFault) ⊎ Rose (K.faults sink.old) (K.faults sink.new) }
        ensures usage { result ≡ Status.Usage → status ≡ Status.Usage }
        ensures stopped { (at : ℕ) (stop : Why) → result ≡ Status.Stopped at stop → status ≡ Status.Stopped at stop }
        ensures faults { K.faults sink.old ≤ K.faults sink.new }
    {
        write_last(sink, self.text.as_slice(), status)
    }

    // Plays the line that ends so, whether or not it has begun before.
    #[inline(always)]
    fn play_line<M: Machine>(&mut self, machine: &mut M, end: &[u8]) -> Result<(), Status>
        requires few { self.old.lines ≤ limit }
        requires stands { M.stands_at machine.old self.old.lines }
        ensures stands { OnOk result (M.stands_at machine.new self.new.lines) }
        ensures counted { OnOk result (self.new.lines ≡ self.old.lines + 1) }
        ensures begun { OnOk result ((line : List ℕ) → Keeps self.old.begun line → Keeps self.new.begun []) }
        ensures played { OnOk result ((line : List ℕ) (long : Bool) (lines : List (List ℕ)) → Keeps self.old.begun line
            → due_from M.rules (M.state machine.old) self.old long ((line ++ end.now) ∷ lines) ≡ due_from M.rules (M.state machine.new) self.new long lines) }
        ensures line { IfErr result (λ status. (n : ℕ) → line_of status ≡ Some n → self.old.lines ≤ n) }
        ensures stops { IfErr result (λ status. (line : List ℕ) (long : Bool) (lines : List (List ℕ)) → Keeps self.old.begun line
            → Stops status (due_from M.rules (M.state machine.old) self.old long ((line ++ end.now) ∷ lines)) self.new.text.items) }
        ensures rules { IfErr result (IsOfRules M.rules) }
        ensures transfer { IfErr result IsNoTransfer }
    {
        if self.begun.is_empty() {
            self.play_whole(machine, end)
        } else {
            self.play_begun(machine, end)
        }
    }

    // Plays a line that is there whole, where none has begun.
    #[inline(always)]
    fn play_whole<M: Machine>(&mut self, machine: &mut M, line: &[u8]) -> Result<(), Status>
        requires few { self.old.lines ≤ limit }
        requires stands { M.stands_at machine.old self.old.lines }
        ensures stands { OnOk result (M.stands_at machine.new self.new.lines) }
        ensures counted { OnOk result (self.new.lines ≡ self.old.lines + 1) }
        ensures begun { self.new.begun ≡ self.old.begun }
        ensures played { OnOk result ((long : Bool) (lines : List (List ℕ))
            → due_from M.rules (M.state machine.old) self.old long (line.now ∷ lines) ≡ due_from M.rules (M.state machine.new) self.new long lines) }
        ensures line { IfErr result (λ status. (n : ℕ) → line_of status ≡ Some n → self.old.lines ≤ n) }
        ensures stops { IfErr result (λ status. (long : Bool) (lines : List (List ℕ))
            → Stops status (due_from M.rules (M.state machine.old) self.old long (line.now ∷ lines)) self.new.text.items) }
        ensures rules { IfErr result (IsOfRules M.rules) }
        ensures transfer { IfErr result IsNoTransfer }
    {
        if line.len() > MOST {
            return self.play_event(machine, &None);
        }
        let event = machine.event_of_line(line);
        self.play_event(machine, &event)
    }

    // Plays the line that has begun and ends so.
    #[cold]
    #[inline(never)]
    fn play_begun<M: Machine>(&mut self, machine: &mut M, end: &[u8]) -> Result<(), Status>
        requires few { self.old.lines ≤ limit }
        requires stands { M.stands_at machine.old self.old.lines }
        ensures stands { OnOk result (M.stands_at machine.new self.new.lines) }
        ensures counted { OnOk result (self.new.lines ≡ self.old.lines + 1) }
        ensures begun { OnOk result ((line : List ℕ) → Keeps self.old.begun line → Keeps self.new.begun []) }
        ensures played { OnOk result ((line : List ℕ) (long : Bool) (lines : List (List ℕ)) → Keeps self.old.begun line
            → due_from M.rules (M.state machine.old) self.old long ((line ++ end.now) ∷ lines) ≡ due_from M.rules (M.state machine.new) self.new long lines) }
        ensures line { IfErr result (λ status. (n : ℕ) → line_of status ≡ Some n → self.old.lines ≤ n) }
        ensures stops { IfErr result (λ status. (line : List ℕ) (long : Bool) (lines : List (List ℕ)) → Keeps self.old.begun line
            → Stops status (due_from M.rules (M.state machine.old) self.old long ((line ++ end.now) ∷ lines)) self.new.text.items) }
        ensures rules { IfErr result (IsOfRules M.rules) }
        ensures transfer { IfErr result IsNoTransfer }
    {
        match self.begun.finish(machine, end) {
            Ok(event) => self.play_event(machine, &event),
            Err(_) => Err(Status::NoMemory),
        }
    }

    // Plays the event of a line, if it has one.
    #[inline(always)]
    fn play_event<M: Machine>(
        &mut self,
        machine: &mut M,
        event: &Option<M::Event>,
    ) -> Result<(), Status>
        requires spelled { IfSome event.now (IsEvent M.rules (M.state machine.old)) }
        requires few { self.old.lines ≤ limit }
        requires stands { M.stands_at machine.old self.old.lines }
        ensures stands { OnOk result (M.stands_at machine.new self.new.lines) }
        ensures counted { OnOk result (self.new.lines ≡ self.old.lines + 1) }
        ensures begun { self.new.begun ≡ self.old.begun }
        ensures played { OnOk result ((long : Bool) (lines : List (List ℕ))
            → with_text self.old.text.items (told_line M.rules (M.state machine.old) self.old.lines event.now (λ after. told_from M.rules long after (self.old.lines + 1) lines))
            ≡ due_from M.rules (M.state machine.new) self.new long lines) }
        ensures line { IfErr result (λ status. (n : ℕ) → line_of status ≡ Some n → self.old.lines ≤ n) }
        ensures stops { IfErr result (λ status. (long : Bool) (lines : List (List ℕ))
            → Stops status (with_text self.old.text.items (told_line M.rules (M.state machine.old) self.old.lines event.now (λ after. told_from M.rules long after (self.old.lines + 1) lines))) self.new.text.items) }
        ensures rules { IfErr result (IsOfRules M.rules) }
        ensures transfer { IfErr result IsNoTransfer }
    {
        let Some(event) = event else {
            return Err(self.end(Ok(()), true, false));
        };
        match play(machine, self.lines, event, &mut self.text) {
            Ok(()) => {
                self.lines += 1;
                Ok(())
            }
            Err(stop) => Err(self.end(Err(stop), false, false)),
        }
    }

    // Tells what the machine has to say at the end of the input, and that it is there.
    fn end_input<M: Machine>(&mut self, machine: &mut M) -> Status
        requires stands { M.stands_at machine.old self.old.lines }
        requires few { self.old.lines ≤ limit + 1 }
        ensures stops { Stops result (due_from M.rules (M.state machine.old) self.old false []) self.new.text.items }
        ensures line { (n : ℕ) → line_of result ≡ Some n → self.old.lines ≤ n }
        ensures rules { IsOfRules M.rules result }
        ensures transfer { IsNoTransfer result }
    {
        match finish(machine, self.lines, &mut self.text) {
            Ok(()) => self.end(Ok(()), false, false),
            Err(_) => Status::NoMemory,
        }
    }

    // Tells how the script ends, if there is memory for that.
    fn end(&mut self, ended: Result<(), Stop>, bad: bool, long: bool) -> Status
        ensures stops { ended ≢ Err Stop.NoMemory → Stops result (with_text self.old.text.items (ending (result_err ended) bad long self.old.lines)) self.new.text.items }
        ensures line { (n : ℕ) → line_of result ≡ Some n → n ≡ self.old.lines }
        ensures memory { ended ≡ Err Stop.NoMemory → (result ≡ Status.NoMemory) × (self.new.text.items ≡ self.old.text.items) }
        ensures begun { self.new.begun ≡ self.old.begun }
        ensures usage { result ≢ Status.Usage }
        ensures no_memory { (at : ℕ) → result ≢ Status.Stopped at Stop.NoMemory }
        ensures stopped { (at : ℕ) (stop : Why) → result ≡ Status.Stopped at stop → ended ≡ Err stop }
        ensures transfer { IsNoTransfer result }
    {
        match put_ending(&mut self.text, ended, bad, long, self.lines) {
            Ok(status) => status,
            Err(_) => Status::NoMemory,
        }
    }

    // Writes the text that is kept, where it is much. After an error nothing is kept.
    fn write_full<K: Sink>(&mut self, sink: &mut K) -> Result<(), Status>
        ensures lines { self.new.lines ≡ self.old.lines }
        ensures begun { self.new.begun ≡ self.old.begun }
        ensures written { OnOk result ((written : List ℕ) × (self.old.text.items ≡ written ++ self.new.text.items) × ((before : List ℕ) → K.taken sink.old ≡ Some before → HasWritten written before (K.taken sink.new))) }
        ensures part { OnErr result ((self.new.text.items ≡ []) × ((before : List ℕ) → K.taken sink.old ≡ Some before → HasWrittenPart self.old.text.items before (K.taken sink.new))) }
        ensures fault { IfErr result (λ status. (status ≡ Status.NoMemory) ⊎ ((status ≡ Status.WriteFault) × Rose (K.faults sink.old) (K.faults sink.new))) }
        ensures faults { K.faults sink.old ≤ K.faults sink.new }
    {
        if self.text.len() < FULL {
            return Ok(());
        }
        self.write_kept(sink)
    }

    // Writes the text that is kept. Nothing is kept after it.
    fn write_kept<K: Sink>(&mut self, sink: &mut K) -> Result<(), Status>
        ensures lines { self.new.lines ≡ self.old.lines }
        ensures begun { self.new.begun ≡ self.old.begun }
        ensures kept { self.new.text.items ≡ [] }
        ensures written { OnOk result ((written : List ℕ) × (self.old.text.items ≡ written ++ self.new.text.items) × ((before : List ℕ) → K.taken sink.old ≡ Some before → HasWritten written before (K.taken sink.new))) }
        ensures part { OnErr result ((self.new.text.items ≡ []) × ((before : List ℕ) → K.taken sink.old ≡ Some before → HasWrittenPart self.old.text.items before (K.taken sink.new))) }
        ensures fault { IfErr result (λ status. (status ≡ Status.NoMemory) ⊎ ((status ≡ Status.WriteFault) × Rose (K.faults sink.old) (K.faults sink.new))) }
        ensures faults { K.faults sink.old ≤ K.faults sink.new }
    {
        let written = write_text(sink, self.text.as_slice());
        self.text.clear();
        match written {
            Ok(()) => Ok(()),
            Err(PutFault::Failed) => Err(Status::WriteFault),
            Err(PutFault::NoMemory) => Err(Status::NoMemory),
        }
    }
}

// Plays an event and puts its reply. On an error the text has not changed.
#[inline(always)]
fn play<M: Machine>(
    machine: &mut M,
    number: u64,
    event: &M::Event,
    text: &mut Vec<u8>,
) -> Result<(), Stop>
    requires stands { M.stands_at machine.old number }
    requires spelled { IsEvent M.rules (M.state machine.old) event.now }
    requires few { number ≤ limit }
    ensures allowed { OnOk result (M.rules.cause (M.state machine.old) event.now ≡ None) }
    ensures next { OnOk result (M.state machine.new ≡ M.rules.next (M.state machine.old) number event.now) }
    ensures stands { OnOk result (M.stands_at machine.new (number + 1)) }
    ensures text { OnOk result (text.new.items ≡ text.old.items ++ M.rules.reply (M.state machine.old) number event.now) }
    ensures refused { IfErr result (λ stop. stop ≢ Stop.NoMemory → M.rules.cause (M.state machine.old) event.now ≡ Some stop) }
    ensures err { OnErr result (text.new.items ≡ text.old.items) }
{
    let start = text.len();
    let played = machine.play(number, event, text);
    if played.is_err() {
        text.truncate(start);
    }
    played
}

// Puts the text at the end of the input. On an error the text has not changed.
fn finish<M: Machine>(machine: &mut M, lines: u64, text: &mut Vec<u8>) -> Result<(), NoMemory>
    requires stands { M.stands_at machine.old lines }
    requires few { lines ≤ limit + 1 }
    ensures text { OnOk result (text.new.items ≡ text.old.items ++ M.rules.last (M.state machine.old) lines) }
    ensures err { OnErr result (text.new.items ≡ text.old.items) }
{
    let start = text.len();
    let put = machine.finish(lines, text);
    if put.is_err() {
        text.truncate(start);
    }
    put
}
