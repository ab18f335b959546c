ghost use Rattle.std.specs.Prelude.{◌≡◌, ◌++◌, OnOk, codes};
ghost use Rattle.mea_text.specs.Text.{number_text};
ghost use Rattle.mea_picture.specs.Picture.{thing_text, stage_text, mark_text, word_text, cause_words};

use mea_base::NoMemory;
use mea_family::Stop;
use mea_marks::{Mark, Stage, Thing};
use mea_text::{put_number, put_text};

/// Appends a space, the name of a sort, and a number.
pub fn put_thing(text: &mut Vec<u8>, thing: Thing) -> Result<(), NoMemory>
    ensures { OnOk result (text.new.items ≡ text.old.items ++ thing_text thing) }
{
    put_text(text, b" ")?;
    put_text(text, thing.sort.word())?;
    put_number(text, thing.name)
}

/// Appends what a mark says.
pub fn put_mark(text: &mut Vec<u8>, mark: &Mark) -> Result<(), NoMemory>
    ensures { OnOk result (text.new.items ≡ text.old.items ++ mark_text mark.now) }
{
    match *mark {
        Mark::Row(thing, stage) => {
            put_text(text, b"row")?;
            put_thing(text, thing)?;
            put_stage(text, stage)
        }
        Mark::Event(number) => put_word(text, b"event", number),
        Mark::Pending(number, thing) => put_deed(text, b"pending", number, thing),
        Mark::Ready(number, thing) => put_deed(text, b"ready", number, thing),
        Mark::Refused(number, thing) => put_deed(text, b"refused", number, thing),
        Mark::Ended(number, thing) => put_deed(text, b"ended", number, thing),
        Mark::Arrow(number, waker, thing) => {
            put_word(text, b"arrow", number)?;
            put_number(text, waker)?;
            put_thing(text, thing)
        }
        Mark::Stray(number, waker) => {
            put_word(text, b"stray", number)?;
            put_number(text, waker)
        }
        Mark::Cause(number, stop) => {
            put_word(text, b"stop", number)?;
            put_text(text, cause_words(stop))
        }
        Mark::Bad(number) => put_word(text, b"bad", number),
        Mark::Long(number) => put_word(text, b"long", number),
    }
}

fn put_word(text: &mut Vec<u8>, word: &[u8], number: u64) -> Result<(), NoMemory>
    ensures { OnOk result (text.new.items ≡ text.old.items ++ word_text word.now number) }
{
    put_text(text, word)?;
    put_number(text, number)
}

fn put_deed(text: &mut Vec<u8>, word: &[u8], number: u64, thing: Thing) -> Result<(), NoMemory>
    ensures { OnOk result (text.new.items ≡ text.old.items ++ (word_text word.now number ++ thing_text thing)) }
{
    put_word(text, word, number)?;
    put_thing(text, thing)
}

fn put_stage(text: &mut Vec<u8>, stage: Stage) -> Result<(), NoMemory>
    ensures { OnOk result (text.new.items ≡ text.old.items ++ stage_text stage) }
{
    match stage {
        Stage::Made | Stage::Rests => Ok(()),
        Stage::Waits(waker) => put_word(text, b" waits", waker),
        Stage::Ended(number) => put_word(text, b" to", number),
    }
}

/// A cause in words.
pub fn cause_words(stop: Stop) -> &'static [u8]
    ensures { result.now ≡ cause_words stop }
{
    match stop {
        Stop::Unknown => b" unknown",
        Stop::Borrowed => b" borrowed",
        Stop::Zero => b" zero",
        Stop::Overflow => b" overflow",
        Stop::NoMemory => b"",
    }
}
