use crate::ink::Ink;
use crate::labels::{cause_words, put_thing};
use crate::lane::{Lane, Lanes};
use crate::layout::{HEAD, Layout, NAMES, ROW, TOP, is_object, x_of};
use crate::shape::Shape;
use mea_base::NoMemory;
use mea_marks::{Mark, Sort, Stage, Thing};
use mea_text::{put_number, put_text};
use std::alloc::Global;

/// How many letters of a line are shown above its column.
const LETTERS: usize = 24;
/// How much of a line lies free beside a sign.
const GAP: u64 = 7;
/// A row that begins behind so many columns has its name there too.
const FAR: u64 = 12;
/// A greater number of free permits is not written out.
const MOST_FREE: u64 = 9999;

/// The shapes that draw a mark, where the rows went on so before it, and go on so behind all marks.
pub fn shapes_of(
    alloc: Global,
    layout: &Layout,
    last: &Lanes,
    lanes: &mut Lanes,
    mark: &Mark,
) -> Result<Vec<Shape>, NoMemory> {
    let mut shapes = Vec::new(alloc);
    let before = lanes.change(layout, mark);
    match *mark {
        Mark::Row(thing, stage) => put_row(alloc, &mut shapes, layout, last, thing, stage)?,
        Mark::Event(number) => put_event(alloc, &mut shapes, layout, number)?,
        Mark::Cause(number, _) | Mark::Bad(number) | Mark::Long(number) => {
            put_cause(alloc, &mut shapes, layout, number, mark)?
        }
        Mark::Stray(number, _) => put_stray(alloc, &mut shapes, layout, number)?,
        Mark::Arrow(number, _, thing)
        | Mark::Pending(number, thing)
        | Mark::Ready(number, thing)
        | Mark::Refused(number, thing)
        | Mark::Ended(number, thing) => {
            put_title(alloc, &mut shapes, layout, number)?;
            put_lane(&mut shapes, layout, before, number, thing)?;
            put_sign(&mut shapes, layout, mark, number, thing)?
        }
    }
    Ok(shapes)
}

// The sign of a poll or an end on the row of a thing, or an arrow to it.
fn put_sign(
    shapes: &mut Vec<Shape>,
    layout: &Layout,
    mark: &Mark,
    number: u64,
    thing: Thing,
) -> Result<(), NoMemory> {
    let Some(ink) = sign_of(mark) else {
        return put_arrow(shapes, layout, number, thing);
    };
    shapes.push(sign(ink, x_of(number), layout.y_of(thing)))?;
    Ok(())
}

// The sign of an ink at a place.
fn sign(ink: Ink, x: u64, y: u64) -> Shape {
    Shape::Stroke(ink, x, y, x, y)
}

fn sign_of(mark: &Mark) -> Option<Ink> {
    match mark {
        Mark::Pending(..) => Some(Ink::Pending),
        Mark::Ready(..) => Some(Ink::Ready),
        Mark::Refused(..) => Some(Ink::Refused),
        Mark::Ended(..) => Some(Ink::Ended),
        _ => None,
    }
}

// A wake of nobody, above the rows.
fn put_stray(
    alloc: Global,
    shapes: &mut Vec<Shape>,
    layout: &Layout,
    number: u64,
) -> Result<(), NoMemory> {
    put_title(alloc, shapes, layout, number)?;
    shapes.push(sign(Ink::Stray, x_of(number), TOP))?;
    Ok(())
}

// The text of the line of an event, with its reply.
fn put_title(
    alloc: Global,
    shapes: &mut Vec<Shape>,
    layout: &Layout,
    number: u64,
) -> Result<(), NoMemory> {
    let mut title = Vec::new(alloc);
    if let Some(note) = layout.past.notes.events.get(number as usize) {
        put_text(&mut title, note.told.as_slice())?;
    }
    shapes.push(Shape::Title(title))?;
    Ok(())
}

// A column: the line above it, upwards, and what the pointer tells.
fn put_event(
    alloc: Global,
    shapes: &mut Vec<Shape>,
    layout: &Layout,
    number: u64,
) -> Result<(), NoMemory> {
    let x = x_of(number);
    let bottom = layout.height().saturating_sub(12);
    put_title(alloc, shapes, layout, number)?;
    shapes.push(Shape::Stroke(Ink::Column, x, HEAD, x, bottom))?;
    shapes.push(Shape::Stroke(Ink::Guide, x, TOP - 6, x, bottom))?;
    put_line(alloc, shapes, layout, number)
}

// The number and the text of a line, upwards above its column.
fn put_line(
    alloc: Global,
    shapes: &mut Vec<Shape>,
    layout: &Layout,
    number: u64,
) -> Result<(), NoMemory> {
    let mut words = Vec::new(alloc);
    put_number(&mut words, number)?;
    put_text(&mut words, b"  ")?;
    if let Some(note) = layout.past.notes.events.get(number as usize) {
        let shown = note.line.len().min(LETTERS);
        put_text(&mut words, &note.line.as_slice()[..shown])?;
    }
    let x = x_of(number).saturating_add(4);
    shapes.push(Shape::Words(Ink::Line, x, TOP - 10, words))?;
    Ok(())
}

// A row: its name, from where it was made to where it ended, what it still waits for, and its free permits.
fn put_row(
    alloc: Global,
    shapes: &mut Vec<Shape>,
    layout: &Layout,
    last: &Lanes,
    thing: Thing,
    stage: Stage,
) -> Result<(), NoMemory> {
    let y = layout.y_of(thing);
    let end = match stage {
        Stage::Ended(number) => x_of(number),
        _ => layout.right(),
    };
    put_name(alloc, shapes, layout, thing)?;
    put_near_name(alloc, shapes, thing, y)?;
    shapes.push(Shape::Stroke(Ink::Span, x_of(thing.name), y, end, y))?;
    if let Some(lane) = last.of(layout, thing) {
        put_stretch(shapes, lane, end, y)?;
    }
    match thing.sort {
        Sort::Semaphore => put_levels(alloc, shapes, layout, thing.name, end, y),
        _ => Ok(()),
    }
}

// The name of a row, and of the object to which it belongs.
fn put_name(
    alloc: Global,
    shapes: &mut Vec<Shape>,
    layout: &Layout,
    thing: Thing,
) -> Result<(), NoMemory> {
    let mut name = Vec::new(alloc);
    put_thing(&mut name, thing)?;
    if let Some(home) = layout.home_of(thing) {
        put_text(&mut name, b" of")?;
        put_thing(&mut name, home)?;
    }
    let (ink, x) = if is_object(thing.sort) {
        (Ink::ObjectName, NAMES)
    } else {
        (Ink::WaitName, NAMES + 10)
    };
    let y = layout.y_of(thing).saturating_add(4);
    shapes.push(Shape::Words(ink, x, y, name))?;
    Ok(())
}

// The name of a row again where it begins, if that is far to the right.
fn put_near_name(
    alloc: Global,
    shapes: &mut Vec<Shape>,
    thing: Thing,
    y: u64,
) -> Result<(), NoMemory> {
    if thing.name < FAR {
        return Ok(());
    }
    let mut name = Vec::new(alloc);
    put_thing(&mut name, thing)?;
    let x = x_of(thing.name).saturating_sub(GAP);
    shapes.push(Shape::Words(Ink::NearName, x, y.saturating_add(4), name))?;
    Ok(())
}

// The free permits of a semaphore as steps, each with its number.
fn put_levels(
    alloc: Global,
    shapes: &mut Vec<Shape>,
    layout: &Layout,
    semaphore: u64,
    end: u64,
    y: u64,
) -> Result<(), NoMemory> {
    let most = most_free(layout, semaphore);
    let mut before: Option<(u64, u64, u64)> = None;
    for level in &layout.past.notes.levels {
        if level.semaphore == semaphore {
            let x = x_of(level.event);
            let height = step_of(level.free, most, y);
            if let Some((from, at, free)) = before {
                put_step(alloc, shapes, from, x, at, free)?;
                shapes.push(Shape::Stroke(Ink::Free, x, at, x, height))?;
            }
            before = Some((x, height, level.free));
        }
    }
    if let Some((from, at, free)) = before {
        put_step(alloc, shapes, from, end, at, free)?;
    }
    Ok(())
}

// A step, and its number.
fn put_step(
    alloc: Global,
    shapes: &mut Vec<Shape>,
    from: u64,
    to: u64,
    y: u64,
    free: u64,
) -> Result<(), NoMemory> {
    shapes.push(Shape::Stroke(Ink::Free, from, y, to, y))?;
    if free <= MOST_FREE {
        let mut count = Vec::new(alloc);
        put_number(&mut count, free)?;
        let under = y.saturating_add(9);
        shapes.push(Shape::Words(Ink::FreeCount, from.saturating_add(1), under, count))?;
    }
    Ok(())
}

// The greatest number of free permits that a semaphore had.
fn most_free(layout: &Layout, semaphore: u64) -> u64 {
    let mut most = 1;
    for level in &layout.past.notes.levels {
        if level.semaphore == semaphore {
            most = most.max(level.free);
        }
    }
    most
}

// The height of the step of so many free permits, of so many at the most.
fn step_of(free: u64, most: u64, y: u64) -> u64 {
    let wide = u128::from(free) * u128::from(ROW - 12) / u128::from(most.max(1));
    let up = u64::try_from(wide).unwrap_or(0);
    y.saturating_sub(up)
}

// That a row waited, or was woken, up to here.
fn put_lane(
    shapes: &mut Vec<Shape>,
    layout: &Layout,
    before: Option<Lane>,
    number: u64,
    thing: Thing,
) -> Result<(), NoMemory> {
    match before {
        Some(lane) => put_stretch(
            shapes,
            lane,
            x_of(number).saturating_sub(GAP),
            layout.y_of(thing),
        ),
        None => Ok(()),
    }
}

fn put_stretch(shapes: &mut Vec<Shape>, lane: Lane, to: u64, y: u64) -> Result<(), NoMemory> {
    if let Some(ink) = lane.ink {
        let from = x_of(lane.since).saturating_add(GAP);
        shapes.push(Shape::Stroke(ink, from, y, to.max(from), y))?;
    }
    Ok(())
}

// An arrow from the object at which a thing waits, or from above, to its row.
fn put_arrow(
    shapes: &mut Vec<Shape>,
    layout: &Layout,
    number: u64,
    thing: Thing,
) -> Result<(), NoMemory> {
    let x = x_of(number);
    let to = layout.y_of(thing);
    let from = layout.home_of(thing).map_or(TOP, |home| layout.y_of(home));
    let end = if from <= to {
        to.saturating_sub(6)
    } else {
        to.saturating_add(6)
    };
    shapes.push(Shape::Stroke(Ink::Arrow, x, from, x, end))?;
    Ok(())
}

// Why the line of the last column was not played.
fn put_cause(
    alloc: Global,
    shapes: &mut Vec<Shape>,
    layout: &Layout,
    number: u64,
    mark: &Mark,
) -> Result<(), NoMemory> {
    let x = x_of(number);
    let bottom = layout.height().saturating_sub(12);
    let words = words_of(alloc, mark)?;
    put_title(alloc, shapes, layout, number)?;
    put_line(alloc, shapes, layout, number)?;
    shapes.push(Shape::Stroke(Ink::Cause, x, bottom, x, TOP))?;
    shapes.push(Shape::Words(Ink::CauseWords, x.saturating_add(14), TOP + 4, words))?;
    Ok(())
}

fn words_of(alloc: Global, mark: &Mark) -> Result<Vec<u8>, NoMemory> {
    let mut words = Vec::new(alloc);
    match *mark {
        Mark::Cause(_, stop) => {
            put_text(&mut words, b"refused:")?;
            put_text(&mut words, cause_words(stop))?;
        }
        Mark::Long(_) => put_text(&mut words, b"too long")?,
        _ => put_text(&mut words, b"no event line")?,
    }
    Ok(words)
}
