ghost use Rattle.std.specs.Prelude.{◌≡◌, ◌≢◌, ◌+◌, ◌<◌, ◌≤◌, ◌⊎◌, ℕ, List, true, Some, IfOk, IfErr, take, length};
ghost use Rattle.mea_io.specs.Bytes.{Rose};
ghost use Rattle.mea_script.specs.Lines.{limit};
ghost use Rattle.mea_marks.specs.Reading.{TookPiece};
ghost use Rattle.mea_marks.specs.Script.{shown_of, seen};

use crate::ending::Ending;
use crate::past::Past;
use crate::playing::Playing;
use mea_base::NoMemory;
use mea_io::Source;
use mea_script::Status;
use mea_text::{cut, put_text};
use std::alloc::Global;

/// How many bytes are asked for at a time.
const PIECE: usize = 4096;

/// How many bytes of a script count.
const LIMIT: usize = 16_777_216;

/// The script that the source holds, as far as it counts, and one byte more where there is more.
#[tactic(auto, using(mea_script::proofs::Pieces::rose_since))]
pub fn read_script<S: Source>(alloc: Global, source: &mut S) -> Result<Vec<u8>, Status>
    ensures ok { IfOk result (λ bytes. (script : List ℕ) → S.left source.old ≡ Some script → bytes.items ≡ take (limit + 1) script) }
    ensures fault { IfErr result (λ status. (status ≡ Status.NoMemory) ⊎ ((status ≡ Status.ReadFault) × Rose (S.faults source.old) (S.faults source.new))) }
{
    let mut script = Vec::new(alloc);
    while script.len() <= LIMIT {
        let most = LIMIT + 1 - script.len();
        match read_piece(source, &mut script, most) {
            Ok(true) => {}
            Ok(false) => return Ok(script),
            Err(status) => return Err(status),
        }
    }
    Ok(script)
}

// Appends the next bytes, at most so many, and answers whether there were any.
fn read_piece<S: Source>(source: &mut S, script: &mut Vec<u8>, most: usize) -> Result<bool, Status>
    requires { 0 < most }
    ensures more { IfOk result (λ more. more ≡ true → length script.old.items + 1 ≤ length script.new.items) }
    ensures few { IfOk result (λ more. length script.new.items ≤ length script.old.items + most) }
    ensures took { IfOk result (λ more. (rest : List ℕ) → S.left source.old ≡ Some rest → TookPiece (S.left source.new) rest more script.old.items script.new.items) }
    ensures fault { IfErr result (λ status. (status ≡ Status.NoMemory) ⊎ ((status ≡ Status.ReadFault) × Rose (S.faults source.old) (S.faults source.new))) }
    ensures faults { S.faults source.old ≤ S.faults source.new }
{
    let mut buffer = [0u8; PIECE];
    let asked = PIECE.min(most);
    take_piece(source, script, &mut buffer[..asked])
}

// Appends the bytes that the source puts into a buffer.
fn take_piece<S: Source>(
    source: &mut S,
    script: &mut Vec<u8>,
    buffer: &mut [u8],
) -> Result<bool, Status>
    requires { 0 < length buffer.old }
    ensures more { IfOk result (λ more. more ≡ true → length script.old.items + 1 ≤ length script.new.items) }
    ensures few { IfOk result (λ more. length script.new.items ≤ length script.old.items + length buffer.old) }
    ensures took { IfOk result (λ more. (rest : List ℕ) → S.left source.old ≡ Some rest → TookPiece (S.left source.new) rest more script.old.items script.new.items) }
    ensures fault { IfErr result (λ status. (status ≡ Status.NoMemory) ⊎ ((status ≡ Status.ReadFault) × Rose (S.faults source.old) (S.faults source.new))) }
    ensures faults { S.faults source.old ≤ S.faults source.new }
{
    match source.take(buffer) {
        Ok(0) => Ok(false),
        Ok(count) => match put_text(script, &buffer[..count]) {
            Ok(()) => Ok(true),
            Err(_) => Err(Status::NoMemory),
        },
        Err(_) => Err(Status::ReadFault),
    }
}

/// Plays a script line by line on a hall at its start.
pub fn show<P: Playing>(alloc: Global, player: &mut P, script: &[u8]) -> Result<Past, NoMemory>
    requires { P.stands_at player.old 0 }
    ensures { IfOk result (λ past. seen past ≡ shown_of P.steps (P.state player.old) script.now) }
{
    let mut past = Past::new(alloc);
    let mut rest = &script[..script.len().min(LIMIT)];
    while let Some((line, after)) = cut(rest, b'\n') {
        let on = past.play_line(alloc, player, line)?;
        if on {
            rest = after;
        } else {
            return Ok(past);
        }
    }
    if script.len() > LIMIT {
        past.ending = Ending::Long;
        return Ok(past);
    }
    if rest.is_empty() {
        return Ok(past);
    }
    past.play_line(alloc, player, rest)?;
    Ok(past)
}
