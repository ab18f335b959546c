ghost use Rattle.std.specs.Prelude.{◌≡◌, ◌++◌, List, IfOk, OnOk, decimal};
ghost use Rattle.mea_marks.specs.Script.{marks_of, seen};
ghost use Rattle.mea_picture.specs.Picture.{IsDrawnTo, IsPictureOf, group_text, head_text};

use crate::labels::put_mark;
use crate::lane::Lanes;
use crate::layout::Layout;
use crate::shape::{Shape, put_shapes};
use crate::shapes::shapes_of;
use crate::style::STYLE;
use itoa::Buffer;
use mea_base::NoMemory;
use mea_marks::{Mark, Past, marks_of};
use mea_text::put_text;
use std::alloc::Global;

/// A picture of what a script did.
pub fn picture_of(alloc: Global, past: &Past) -> Result<Vec<u8>, NoMemory>
    ensures { IfOk result (λ text. IsPictureOf (marks_of (seen past.now)) text.items) }
{
    let marks = marks_of(alloc, past)?;
    let layout = Layout::new(alloc, past)?;
    let mut text = Vec::new(alloc);
    put_head(&mut text, layout.width(), layout.height())?;
    put_marks(alloc, &mut text, &layout, marks.as_slice())?;
    put_text(&mut text, b"</svg>\n")?;
    Ok(text)
}

fn put_head(text: &mut Vec<u8>, width: u64, height: u64) -> Result<(), NoMemory>
    ensures { OnOk result (text.new.items ≡ text.old.items ++ head_text width height) }
{
    put_text(text, b"<svg xmlns=\"http://www.w3.org/2000/svg\" width=\"")?;
    put_decimal(text, width)?;
    put_text(text, b"\" height=\"")?;
    put_decimal(text, height)?;
    put_text(text, STYLE)?;
    Ok(())
}

fn put_decimal(text: &mut Vec<u8>, n: u64) -> Result<(), NoMemory>
    ensures { OnOk result (text.new.items ≡ text.old.items ++ decimal n) }
{
    let mut digits = Buffer::new();
    put_text(text, digits.format(n).as_bytes())
}

// Appends each mark with the shapes that draw it.
fn put_marks(
    alloc: Global,
    text: &mut Vec<u8>,
    layout: &Layout,
    marks: &[Mark],
) -> Result<(), NoMemory>
    ensures { OnOk result (IsDrawnTo marks.now text.old.items text.new.items) }
{
    let last = Lanes::last(alloc, layout, marks)?;
    let mut lanes = Lanes::new(alloc, layout.past.board.rows.len())?;
    for mark in marks {
        let shapes = shapes_of(alloc, layout, &last, &mut lanes, mark)?;
        put_group(alloc, text, mark, shapes.as_slice())?;
    }
    Ok(())
}

// Appends a group that says its mark and has its shapes.
fn put_group(
    alloc: Global,
    text: &mut Vec<u8>,
    mark: &Mark,
    shapes: &[Shape],
) -> Result<(), NoMemory>
    ensures { OnOk result (text.new.items ≡ text.old.items ++ group_text (record { mark = mark.now; shapes = shapes.now })) }
{
    put_text(text, b"<g data-mark=\"")?;
    put_mark(text, mark)?;
    put_text(text, b"\">")?;
    put_shapes(alloc, text, shapes)?;
    put_text(text, b"</g>\n")?;
    Ok(())
}
