ghost use Rattle.std.specs.Prelude.{◌≡◌, ◌++◌, OnOk, codes};
ghost use Rattle.std.specs.List.{flat_map};
ghost use Rattle.mea_picture.specs.Shapes.{shape_text, tag_text, place_text, safe_byte, safe_text};

use crate::ink::Ink;
use mea_base::NoMemory;
use mea_text::{put_number, put_text};
use std::alloc::Global;

/// What draws a part of a mark. A place is two numbers, to the right and downwards.
#[derive(Drop)]
pub enum Shape {
    /// What the pointer tells.
    Title(Vec<u8>),
    /// A line from a place to a place, with the sign of its ink at its end.
    Stroke(Ink, u64, u64, u64, u64),
    /// A text that begins at a place.
    Words(Ink, u64, u64, Vec<u8>),
}

/// Appends the text of shapes, one after another.
pub fn put_shapes(alloc: Global, text: &mut Vec<u8>, shapes: &[Shape]) -> Result<(), NoMemory>
    ensures { OnOk result (text.new.items ≡ text.old.items ++ flat_map shape_text shapes.now) }
{
    for shape in shapes {
        put_shape(alloc, text, shape)?;
    }
    Ok(())
}

fn put_shape(alloc: Global, text: &mut Vec<u8>, shape: &Shape) -> Result<(), NoMemory>
    ensures { OnOk result (text.new.items ≡ text.old.items ++ shape_text shape.now) }
{
    match shape {
        Shape::Title(words) => {
            put_text(text, b"<title>")?;
            put_safe(alloc, text, words.as_slice())?;
            put_text(text, b"</title>")
        }
        Shape::Stroke(ink, x, y, to_x, to_y) => {
            put_tag(text, b"<path class=\"", *ink, b"\" d=\"M", *x, *y)?;
            put_text(text, b" L")?;
            put_place(text, *to_x, *to_y)?;
            put_text(text, b"\"/>")
        }
        Shape::Words(ink, x, y, words) => {
            put_tag(text, b"<text class=\"", *ink, ink.turn(), *x, *y)?;
            put_text(text, b")\">")?;
            put_safe(alloc, text, words.as_slice())?;
            put_text(text, b"</text>")
        }
    }
}

// Appends the begin of a tag, its class, and a place.
fn put_tag(
    text: &mut Vec<u8>,
    tag: &[u8],
    ink: Ink,
    at: &[u8],
    x: u64,
    y: u64,
) -> Result<(), NoMemory>
    ensures { OnOk result (text.new.items ≡ text.old.items ++ tag_text tag.now ink at.now x y) }
{
    put_text(text, tag)?;
    put_text(text, ink.word())?;
    put_text(text, at)?;
    put_place(text, x, y)
}

// Appends the two numbers of a place, each after a space.
fn put_place(text: &mut Vec<u8>, x: u64, y: u64) -> Result<(), NoMemory>
    ensures { OnOk result (text.new.items ≡ text.old.items ++ place_text x y) }
{
    put_number(text, x)?;
    put_number(text, y)
}

// Appends a text in which no byte begins a tag.
fn put_safe(alloc: Global, text: &mut Vec<u8>, words: &[u8]) -> Result<(), NoMemory>
    ensures { OnOk result (text.new.items ≡ text.old.items ++ safe_text words.now) }
{
    match words.iter().map(|byte| safe_byte(*byte)).collect(alloc) {
        Ok(safe) => {
            let safe: Vec<u8> = safe;
            put_text(text, safe.as_slice())
        }
        Err(_) => Err(NoMemory),
    }
}

fn safe_byte(byte: u8) -> u8
    ensures { result ≡ safe_byte byte }
{
    if 31 < byte && byte < 127 && byte != b'<' && byte != b'>' && byte != b'&' && byte != b'"' {
        byte
    } else {
        b'?'
    }
}
