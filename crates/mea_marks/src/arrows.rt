ghost use Rattle.std.specs.Prelude.{◌≡◌, ◌++◌, OnOk};
ghost use Rattle.std.specs.List.{flat_map, list_any};
ghost use Rattle.mea_marks.specs.Rows.{waits_with};
ghost use Rattle.mea_marks.specs.Marks.{is_woken, arrow_to, stray_at};

use crate::mark::Mark;
use crate::row::{Row, Stage, waits_with};
use mea_base::NoMemory;

/// Appends an arrow to each thing that waits with a waker which the event makes ready.
pub fn put_arrows(
    marks: &mut Vec<Mark>,
    number: u64,
    rows: &[Row],
    wakes: &[u64],
) -> Result<(), NoMemory>
    ensures { OnOk result (marks.new.items ≡ marks.old.items ++ flat_map (arrow_to number wakes.now) rows.now) }
{
    for row in rows {
        put_arrow(marks, number, *row, wakes)?;
    }
    Ok(())
}

fn put_arrow(marks: &mut Vec<Mark>, number: u64, row: Row, wakes: &[u64]) -> Result<(), NoMemory>
    ensures { OnOk result (marks.new.items ≡ marks.old.items ++ arrow_to number wakes.now row) }
{
    match row.stage {
        Stage::Waits(waker) if is_woken(waker, wakes) => {
            marks.push(Mark::Arrow(number, waker, row.thing))?;
            Ok(())
        }
        _ => Ok(()),
    }
}

fn is_woken(waker: u64, wakes: &[u64]) -> bool
    ensures { result ≡ is_woken waker wakes.now }
{
    wakes.iter().any(|woken| *woken == waker)
}

/// Appends each waker that the event makes ready and with which nothing waits.
pub fn put_strays(
    marks: &mut Vec<Mark>,
    number: u64,
    rows: &[Row],
    wakes: &[u64],
) -> Result<(), NoMemory>
    ensures { OnOk result (marks.new.items ≡ marks.old.items ++ flat_map (stray_at number rows.now) wakes.now) }
{
    for waker in wakes {
        put_stray(marks, number, rows, *waker)?;
    }
    Ok(())
}

fn put_stray(marks: &mut Vec<Mark>, number: u64, rows: &[Row], waker: u64) -> Result<(), NoMemory>
    ensures { OnOk result (marks.new.items ≡ marks.old.items ++ stray_at number rows.now waker) }
{
    if !is_awaited(waker, rows) {
        marks.push(Mark::Stray(number, waker))?;
    }
    Ok(())
}

fn is_awaited(waker: u64, rows: &[Row]) -> bool
    ensures { result ≡ list_any (waits_with waker) rows.now }
{
    rows.iter().any(|row| waits_with(*row, waker))
}
