ghost use Rattle.std.specs.Prelude.{◌≡◌, ◌++◌, map, IfOk, OnOk};
ghost use Rattle.mea_marks.specs.Script.{row_mark, ending_marks, marks_of, seen};

use crate::ending::Ending;
use crate::mark::Mark;
use crate::past::Past;
use crate::row::Row;
use mea_base::NoMemory;
use std::alloc::Global;

/// The marks of a script: its rows, then the marks of each event, then the cause.
pub fn marks_of(alloc: Global, past: &Past) -> Result<Vec<Mark>, NoMemory>
    ensures { IfOk result (λ marks. marks.items ≡ marks_of (seen past.now)) }
{
    let mut marks = row_marks(alloc, past.board.rows.as_slice())?;
    marks.extend_from_slice(past.board.marks.as_slice())?;
    put_ending(&mut marks, past.ending, past.lines)?;
    Ok(marks)
}

fn row_marks(alloc: Global, rows: &[Row]) -> Result<Vec<Mark>, NoMemory>
    ensures { IfOk result (λ marks. marks.items ≡ map row_mark rows.now) }
{
    match rows
        .iter()
        .map(|row| Mark::Row(row.thing, row.stage))
        .collect(alloc)
    {
        Ok(marks) => Ok(marks),
        Err(_) => Err(NoMemory),
    }
}

fn put_ending(marks: &mut Vec<Mark>, ending: Ending, lines: u64) -> Result<(), NoMemory>
    ensures { OnOk result (marks.new.items ≡ marks.old.items ++ ending_marks ending lines) }
{
    match ending {
        Ending::Whole | Ending::TooGreat => {}
        Ending::Stopped(stop) => marks.push(Mark::Cause(lines, stop))?,
        Ending::Bad => marks.push(Mark::Bad(lines))?,
        Ending::Long => marks.push(Mark::Long(lines))?,
    }
    Ok(())
}
