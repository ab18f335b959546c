ghost use Rattle.std.specs.Prelude.{◌≡◌, ◌≢◌, ◌⊎◌, ◌+◌, ◌<◌, ◌≤◌, ◌++◌, ℕ, List, [], Some, IfOk, IfErr, OnOk, length, take, drop};
ghost use Rattle.mea_family.specs.declared.stop.Stop.{Stop as Why};
ghost use Rattle.mea_io.specs.Bytes.{Rose};
ghost use Rattle.mea_script.specs.Begun.{Keeps};
ghost use Rattle.mea_script.specs.Lines.{limit, IsUnended, lines_ended};
ghost use Rattle.mea_script.specs.Player.{due, GoesOn, Ends};
ghost use Rattle.mea_script.specs.Runs.{IsFault, IsCause, Answers, Tells, IsTakenTo, IsOfRules, line_of};
ghost use Rattle.mea_script.specs.Told.{told_by};

use crate::machine::Machine;
use crate::player::Player;
use crate::status::Status;
use crate::transfer::{PIECE, zeros};
use mea_family::Stop;
use mea_io::{Sink, Source};
use std::alloc::Global;

/// How many bytes of a script count.
const LIMIT: usize = 16_777_216;

/// Plays the script that the source holds on a machine at its start, line by line, and writes the text of the replies to
/// the sink, which the last line ends. The machine is spent: a program has no use for it after its script.
///
/// It takes memory for two pieces, the longest reply and what the machine takes. A source or a sink that tells no bytes has
/// the clauses that speak of none.
pub fn play_script<M: Machine + Drop, S: Source, K: Sink>(
    alloc: Global,
    mut machine: M,
    source: &mut S,
    sink: &mut K,
) -> Status
    requires { M.stands_at machine 0 }
    ensures usage { result ≢ Status.Usage }
    ensures read_fault { result ≡ Status.ReadFault → Rose (S.faults source.old) (S.faults source.new) }
    ensures write_fault { result ≡ Status.WriteFault → Rose (K.faults sink.old) (K.faults sink.new) }

    // A line is refused for a cause that an event has, and never for want of memory.
    ensures cause { (at : ℕ) → result ≢ Status.Stopped at Stop.NoMemory }
    ensures stopped { (at : ℕ) (stop : Why) → result ≡ Status.Stopped at stop → IsCause M.rules stop }

    // Where the source tells its bytes, and where the sink tells them too.
    ensures status { (script : List ℕ) → S.left source.old ≡ Some script → IsFault result ⊎ (result ≡ (told_by M.rules (M.state machine) script).status) }
    ensures text { (script before : List ℕ) → S.left source.old ≡ Some script → K.taken sink.old ≡ Some before
        → Tells (told_by M.rules (M.state machine) script) result before (K.taken sink.new) }

    // The same where no read and no write failed.
    ensures whole { (script before : List ℕ) → S.left source.old ≡ Some script → K.taken sink.old ≡ Some before
        → ¬ Rose (S.faults source.old) (S.faults source.new) → ¬ Rose (K.faults sink.old) (K.faults sink.new)
        → (result ≡ Status.NoMemory) ⊎ Answers (told_by M.rules (M.state machine) script) result before (K.taken sink.new) }

    // Nothing more is taken after the line that ends the text: it had not ended before the last piece.
    ensures taken_to { (script : List ℕ) (n : ℕ) → S.left source.old ≡ Some script → line_of result ≡ Some n
        → (left : List ℕ) × (S.left source.new ≡ Some left) × IsTakenTo n script left }
{
    let mut buffer = match zeros(alloc, PIECE) {
        Ok(buffer) => buffer,
        Err(_) => return Status::NoMemory,
    };
    let mut player = Player::new(alloc);
    let status = play_pieces(&mut player, &mut machine, &mut buffer, source, sink);
    player.close(sink, status)
}

/// Plays a script, piece by piece as it comes, and answers how it ends.
fn play_pieces<M: Machine, S: Source, K: Sink>(
    player: &mut Player,
    machine: &mut M,
    buffer: &mut [u8],
    source: &mut S,
    sink: &mut K,
) -> Status
    requires buffer { length buffer.old ≡ 65536 }
    requires lines { player.old.lines ≡ 0 }
    requires stands { M.stands_at machine.old 0 }
    requires begun { Keeps player.old.begun [] }
    requires kept { player.old.text.items ≡ [] }
    ensures rules { IsOfRules M.rules result }
    ensures read_fault { result ≡ Status.ReadFault → Rose (S.faults source.old) (S.faults source.new) }
    ensures write_fault { result ≡ Status.WriteFault → Rose (K.faults sink.old) (K.faults sink.new) }
    ensures faults { K.faults sink.old ≤ K.faults sink.new }
    ensures status { (script : List ℕ) → S.left source.old ≡ Some script
        → IsFault result ⊎ (result ≡ (due M.rules (M.state machine.old) player.old limit script).status) }
    ensures text { (script before : List ℕ) → S.left source.old ≡ Some script → K.taken sink.old ≡ Some before
        → Ends result (due M.rules (M.state machine.old) player.old limit script).text before (K.taken sink.new) player.new.text.items }
    ensures taken_to { (script : List ℕ) (n : ℕ) → S.left source.old ≡ Some script → line_of result ≡ Some n
        → (left : List ℕ) × (S.left source.new ≡ Some left) × IsTakenTo n script left }
{
    let mut read = 0;
    while read < LIMIT {
        let asked = PIECE.min(LIMIT - read);
        match play_next(player, machine, &mut buffer[..asked], source, sink) {
            Ok(0) => return player.finish(machine),
            Ok(count) => read += count,
            Err(status) => return status,
        }
    }
    match source.take(&mut buffer[..1]) {
        Err(_) => Status::ReadFault,
        Ok(0) => player.finish(machine),
        Ok(_) => player.cut_off(machine),
    }
}

/// Plays the next piece, and answers how many bytes it has: none where the script is at its end. It is asked for where
/// nothing is kept, so that the replies to all lines that have ended are written.
fn play_next<M: Machine, S: Source, K: Sink>(
    player: &mut Player,
    machine: &mut M,
    buffer: &mut [u8],
    source: &mut S,
    sink: &mut K,
) -> Result<usize, Status>
    requires buffer { 0 < length buffer.old }
    requires few { player.old.lines + length buffer.old ≤ limit }
    requires stands { M.stands_at machine.old player.old.lines }
    requires kept { player.old.text.items ≡ [] }
    ensures kept { OnOk result (player.new.text.items ≡ []) }
    ensures few { IfOk result (λ count. (count ≤ length buffer.old) × (player.new.lines ≤ player.old.lines + count)) }
    ensures stands { OnOk result (M.stands_at machine.new player.new.lines) }
    ensures counted { IfOk result (λ count. (rest : List ℕ) → S.left source.old ≡ Some rest
        → (S.left source.new ≡ Some (drop count rest)) × (player.new.lines ≡ player.old.lines + lines_ended (take count rest))) }
    ensures line { IfErr result (λ status. (n : ℕ) → line_of status ≡ Some n → player.old.lines ≤ n) }
    ensures took { IfErr result (λ status. (n : ℕ) (rest : List ℕ) → line_of status ≡ Some n → S.left source.old ≡ Some rest
        → (count : ℕ) × (count ≤ length buffer.old) × (S.left source.new ≡ Some (drop count rest))) }
    ensures goes_on { IfOk result (λ count. (line rest : List ℕ) (room : ℕ) → Keeps player.old.begun line → IsUnended line → S.left source.old ≡ Some rest
        → (next : List ℕ) × Keeps player.new.begun next × IsUnended next × (S.left source.new ≡ Some (drop count rest)) × (count ≡ 0 → rest ≡ [])
        × GoesOn (due M.rules (M.state machine.old) player.old (length line + (count + room)) (line ++ rest))
        (due M.rules (M.state machine.new) player.new (length next + room) (next ++ drop count rest)) (K.taken sink.old) (K.taken sink.new)) }
    ensures status { IfErr result (λ status. (line rest : List ℕ) (room : ℕ) → Keeps player.old.begun line → IsUnended line → S.left source.old ≡ Some rest → length buffer.old ≤ room
        → IsFault status ⊎ (status ≡ (due M.rules (M.state machine.old) player.old (length line + room) (line ++ rest)).status)) }
    ensures text { IfErr result (λ status. (line rest before : List ℕ) (room : ℕ) → Keeps player.old.begun line → IsUnended line → S.left source.old ≡ Some rest → length buffer.old ≤ room → K.taken sink.old ≡ Some before
        → Ends status (due M.rules (M.state machine.old) player.old (length line + room) (line ++ rest)).text before (K.taken sink.new) player.new.text.items) }
    ensures rules { IfErr result (IsOfRules M.rules) }
    ensures read_fault { result ≡ Err Status.ReadFault → Rose (S.faults source.old) (S.faults source.new) }
    ensures write_fault { result ≡ Err Status.WriteFault → Rose (K.faults sink.old) (K.faults sink.new) }
    ensures source_faults { S.faults source.old ≤ S.faults source.new }
    ensures faults { K.faults sink.old ≤ K.faults sink.new }
{
    match source.take(buffer) {
        Err(_) => Err(Status::ReadFault),
        Ok(count) => {
            player.play(machine, &buffer[..count], sink)?;
            Ok(count)
        }
    }
}
