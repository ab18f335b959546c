ghost use Rattle.std.specs.Prelude.{◌≡◌, ◌≢◌, ◌+◌, ◌≤◌, ◌||◌, true, false, Some, IfOk, OnOk, nat_lt};
ghost use Rattle.mea_lines.specs.Lines.{event_of};
ghost use Rattle.mea_marks.specs.Marks.{empty_board, board_of, board_after};
ghost use Rattle.mea_marks.specs.Script.{is_great, seen, ended, GoesOn, EndsAt};

use crate::board::Board;
use crate::ending::Ending;
use crate::notes::Notes;
use crate::playing::Playing;
use mea_base::NoMemory;
use mea_events::Event;
use mea_family::{Answer, Stop};
use mea_lines::event_of_line;
use std::alloc::Global;

/// The most events that are drawn.
const MOST_EVENTS: u64 = 2000;

/// The most rows that are drawn.
const MOST_ROWS: usize = 1000;

/// What a script has done so far.
#[derive(Drop)]
pub struct Past {
    pub board: Board,
    pub notes: Notes,
    pub ending: Ending,
    /// How many lines were played.
    pub lines: u64,
    // The wakers of the last event.
    wakes: Vec<u64>,
}

impl Past {
    /// Nothing was played. It takes no memory.
    pub fn new(alloc: Global) -> Past
        ensures { seen result ≡ ended empty_board Ending.Whole 0 }
    {
        Past {
            board: Board::new(alloc),
            notes: Notes::new(alloc),
            ending: Ending::Whole,
            lines: 0,
            wakes: Vec::new(alloc),
        }
    }

    /// Plays the next line, and answers whether the script goes on after it.
    pub fn play_line<P: Playing>(
        &mut self,
        alloc: Global,
        player: &mut P,
        line: &[u8],
    ) -> Result<bool, NoMemory>
        requires few { self.old.lines ≤ 2000 }
        requires stands { P.stands_at player.old self.old.lines }
        ensures whole { IfOk result (λ on. on ≡ true → self.new.ending ≡ self.old.ending) }
        ensures few { IfOk result (λ on. on ≡ true → self.new.lines ≤ 2000) }
        ensures counted { IfOk result (λ on. on ≡ true → self.new.lines ≡ self.old.lines + 1) }
        ensures stands { IfOk result (λ on. on ≡ true → P.stands_at player.new self.new.lines) }
        ensures next { IfOk result (λ on. on ≡ true → GoesOn P.steps (P.state player.old) (P.state player.new) (board_of self.old.board) (board_of self.new.board) self.old.lines (event_of line.now)) }
        ensures last { IfOk result (λ on. on ≡ false → EndsAt P.steps (P.state player.old) (board_of self.old.board) self.old.lines (event_of line.now) (seen self.new)) }
    {
        match event_of_line(line) {
            Some(event) => self.play_event(alloc, player, line, &event),
            None => {
                self.notes.add_last(alloc, self.lines, b"no event line")?;
                self.ending = Ending::Bad;
                Ok(false)
            }
        }
    }

    fn play_event<P: Playing>(
        &mut self,
        alloc: Global,
        player: &mut P,
        line: &[u8],
        event: &Event,
    ) -> Result<bool, NoMemory>
        requires few { self.old.lines ≤ 2000 }
        requires stands { P.stands_at player.old self.old.lines }
        ensures whole { IfOk result (λ on. on ≡ true → self.new.ending ≡ self.old.ending) }
        ensures few { IfOk result (λ on. on ≡ true → self.new.lines ≤ 2000) }
        ensures counted { IfOk result (λ on. on ≡ true → self.new.lines ≡ self.old.lines + 1) }
        ensures stands { IfOk result (λ on. on ≡ true → P.stands_at player.new self.new.lines) }
        ensures next { IfOk result (λ on. on ≡ true → GoesOn P.steps (P.state player.old) (P.state player.new) (board_of self.old.board) (board_of self.new.board) self.old.lines (Some event.now)) }
        ensures last { IfOk result (λ on. on ≡ false → EndsAt P.steps (P.state player.old) (board_of self.old.board) self.old.lines (Some event.now) (seen self.new)) }
    {
        match player.play(self.lines, event, &mut self.wakes) {
            Ok(answer) => {
                self.add(alloc, line, event, &answer)?;
                let rows = self.board.rows.as_slice();
                self.notes.add_levels(player, self.lines, rows)?;
                Ok(self.goes_on())
            }
            Err(Stop::NoMemory) => Err(NoMemory),
            Err(stop) => {
                self.notes.add_last(alloc, self.lines, line)?;
                self.ending = Ending::Stopped(stop);
                Ok(false)
            }
        }
    }

    // Adds an event that was played, with the wakers that it made ready.
    fn add(
        &mut self,
        alloc: Global,
        line: &[u8],
        event: &Event,
        answer: &Answer,
    ) -> Result<(), NoMemory>
        ensures board { OnOk result (board_of self.new.board ≡ board_after (board_of self.old.board) self.old.lines event.now answer.now self.old.wakes.items) }
        ensures lines { self.new.lines ≡ self.old.lines }
        ensures ending { self.new.ending ≡ self.old.ending }
    {
        let wakes = self.wakes.as_slice();
        self.board.add(alloc, self.lines, event, answer, wakes)?;
        self.notes
            .add(alloc, self.lines, line, event, answer, wakes)
    }

    // Counts an event, and answers whether more may be drawn.
    fn goes_on(&mut self) -> bool
        requires { self.old.lines ≤ 2000 }
        ensures board { board_of self.new.board ≡ board_of self.old.board }
        ensures lines { self.new.lines ≡ self.old.lines + 1 }
        ensures few { result ≡ true → self.new.lines ≤ 2000 }
        ensures on { result ≡ true → (is_great (board_of self.new.board) self.new.lines ≡ false) × (self.new.ending ≡ self.old.ending) }
        ensures stops { result ≡ false → (is_great (board_of self.new.board) self.new.lines ≡ true) × (self.new.ending ≡ Ending.TooGreat) }
    {
        self.lines += 1;
        if is_great(self.board.rows.len(), self.lines) {
            self.ending = Ending::TooGreat;
            return false;
        }
        true
    }
}

// Whether there are more rows or events than are drawn.
fn is_great(rows: usize, events: u64) -> bool
    ensures { result ≡ (nat_lt 1000 rows || nat_lt 2000 events) }
{
    rows > MOST_ROWS || events > MOST_EVENTS
}
