ghost use Rattle.std.specs.Prelude.{◌≡◌, ◌++◌, ◌∷◌, [], OnOk, IfOk, map};
ghost use Rattle.mea_marks.specs.Deeds.{deed_of};
ghost use Rattle.mea_marks.specs.Rows.{with_stage, has_row, put_stage, add_row};
ghost use Rattle.mea_marks.specs.Marks.{board_of, empty_board, board_after, rows_before, rows_after, polled_stage, poll_mark, deed_marks, event_marks};

use crate::arrows::{put_arrows, put_strays};
use crate::deed::Deed;
use crate::deeds::deed_of;
use crate::mark::Mark;
use crate::row::{Row, Stage, is_of, staged};
use crate::thing::Thing;
use mea_base::NoMemory;
use mea_events::Event;
use mea_family::Answer;
use std::alloc::Global;

/// The rows and the marks so far, without the marks of the rows.
#[derive(Drop)]
pub struct Board {
    pub rows: Vec<Row>,
    pub marks: Vec<Mark>,
}

impl Board {
    /// Nothing was played. It takes no memory.
    pub fn new(alloc: Global) -> Board
        ensures { board_of result ≡ empty_board }
    {
        Board {
            rows: Vec::new(alloc),
            marks: Vec::new(alloc),
        }
    }

    /// Adds the event of this number, with its answer and the wakers that it made ready. After an error the board is of
    /// no use.
    #[tactic(auto, unfolding(crate::specs::Marks::board_after))]
    pub fn add(
        &mut self,
        alloc: Global,
        number: u64,
        event: &Event,
        answer: &Answer,
        wakes: &[u64],
    ) -> Result<(), NoMemory>
        ensures { OnOk result (board_of self.new ≡ board_after (board_of self.old) number event.now answer.now wakes.now) }
    {
        let deed = deed_of(event);
        self.marks.push(Mark::Event(number))?;
        let before = rows_before(alloc, number, deed, self.rows.as_slice())?;
        put_arrows(&mut self.marks, number, before.as_slice(), wakes)?;
        put_strays(&mut self.marks, number, before.as_slice(), wakes)?;
        put_deed(&mut self.marks, number, deed, answer, self.rows.as_slice())?;
        self.rows = rows_after(alloc, number, deed, answer, before)?;
        Ok(())
    }
}

// Appends what an event polls or ends.
fn put_deed(
    marks: &mut Vec<Mark>,
    number: u64,
    deed: Deed,
    answer: &Answer,
    rows: &[Row],
) -> Result<(), NoMemory>
    ensures { OnOk result (marks.new.items ≡ marks.old.items ++ deed_marks number deed answer.now rows.now) }
{
    match deed {
        Deed::Polls(thing, _) => {
            marks.push(poll_mark(number, thing, answer))?;
            Ok(())
        }
        Deed::Ends(thing) => put_end(marks, number, thing, rows),
        _ => Ok(()),
    }
}

fn put_end(marks: &mut Vec<Mark>, number: u64, thing: Thing, rows: &[Row]) -> Result<(), NoMemory>
    ensures { OnOk result (marks.new.items ≡ marks.old.items ++ deed_marks number (Deed.Ends thing) Answer.Done rows.now) }
{
    if has_row(thing, rows) {
        marks.push(Mark::Ended(number, thing))?;
    }
    Ok(())
}

fn poll_mark(number: u64, thing: Thing, answer: &Answer) -> Mark
    ensures { result ≡ poll_mark number thing answer.now }
{
    match answer {
        Answer::Pending => Mark::Pending(number, thing),
        Answer::Gone | Answer::Closed(_) | Answer::Failure(_) => Mark::Refused(number, thing),
        _ => Mark::Ready(number, thing),
    }
}

// The rows when the event wakes others: what it polls or ends waits no more.
fn rows_before(alloc: Global, number: u64, deed: Deed, rows: &[Row]) -> Result<Vec<Row>, NoMemory>
    ensures { IfOk result (λ before. before.items ≡ rows_before number deed rows.now) }
{
    match deed {
        Deed::Polls(thing, _) => with_stage(alloc, thing, Stage::Rests, rows),
        Deed::Ends(thing) => with_stage(alloc, thing, Stage::Ended(number), rows),
        _ => match rows.to_vec(alloc) {
            Ok(rows) => Ok(rows),
            Err(_) => Err(NoMemory),
        },
    }
}

// The rows after the event.
fn rows_after(
    alloc: Global,
    number: u64,
    deed: Deed,
    answer: &Answer,
    before: Vec<Row>,
) -> Result<Vec<Row>, NoMemory>
    ensures { IfOk result (λ after. after.items ≡ rows_after number deed answer.now before.items) }
{
    match deed {
        Deed::Makes(sort) | Deed::Begins(sort, _) => add_row(Thing { sort, name: number }, before),
        Deed::Polls(thing, waker) => {
            let stage = polled_stage(number, thing.sort.is_lasting(), waker, answer);
            put_stage(alloc, thing, stage, before)
        }
        _ => Ok(before),
    }
}

fn polled_stage(number: u64, lasting: bool, waker: u64, answer: &Answer) -> Stage
    ensures { result ≡ polled_stage number lasting waker answer.now }
{
    match answer {
        Answer::Pending => Stage::Waits(waker),
        _ if lasting => Stage::Rests,
        _ => Stage::Ended(number),
    }
}

fn with_stage(alloc: Global, thing: Thing, stage: Stage, rows: &[Row]) -> Result<Vec<Row>, NoMemory>
    ensures { IfOk result (λ after. after.items ≡ with_stage thing stage rows.now) }
{
    match rows
        .iter()
        .map(|row| staged(thing, stage, *row))
        .collect(alloc)
    {
        Ok(rows) => Ok(rows),
        Err(_) => Err(NoMemory),
    }
}

fn put_stage(
    alloc: Global,
    thing: Thing,
    stage: Stage,
    mut rows: Vec<Row>,
) -> Result<Vec<Row>, NoMemory>
    ensures { IfOk result (λ after. after.items ≡ put_stage thing stage rows.items) }
{
    if has_row(thing, rows.as_slice()) {
        return with_stage(alloc, thing, stage, rows.as_slice());
    }
    rows.push(Row { thing, stage })?;
    Ok(rows)
}

fn add_row(thing: Thing, mut rows: Vec<Row>) -> Result<Vec<Row>, NoMemory>
    ensures { IfOk result (λ after. after.items ≡ add_row thing rows.items) }
{
    if !has_row(thing, rows.as_slice()) {
        rows.push(Row {
            thing,
            stage: Stage::Made,
        })?;
    }
    Ok(rows)
}

fn has_row(thing: Thing, rows: &[Row]) -> bool
    ensures { result ≡ has_row thing rows.now }
{
    rows.iter().any(|row| is_of(thing, *row))
}
