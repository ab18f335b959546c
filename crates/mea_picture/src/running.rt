ghost use Rattle.std.specs.Prelude.{◌≡◌, ◌≢◌, ◌⊎◌, ℕ, List, Some, IfSome, IfNone};
ghost use Rattle.mea_io.specs.Bytes.{Rose};
ghost use Rattle.mea_marks.specs.Script.{shown_of, seen};
ghost use Rattle.mea_picture.specs.Drawing.{draw_status, IsDrawFault, Draws};

use crate::picture::picture_of;
use crate::status::DrawStatus;
use mea_io::{Sink, Source};
use mea_marks::{Ending, Past, Playing, read_script, show};
use mea_script::{Status, write_last};
use std::alloc::Global;

/// Plays the script that the source holds on a hall at its start, and writes a picture of what it did. The hall is spent.
pub fn draw_script<P: Playing + Drop, S: Source, K: Sink>(
    alloc: Global,
    mut player: P,
    source: &mut S,
    sink: &mut K,
) -> DrawStatus
    requires { P.stands_at player 0 }
    ensures usage { result ≢ DrawStatus.Played Status.Usage }
    ensures read_fault { result ≡ DrawStatus.Played Status.ReadFault → Rose (S.faults source.old) (S.faults source.new) }
    ensures write_fault { result ≡ DrawStatus.Played Status.WriteFault → Rose (K.faults sink.old) (K.faults sink.new) }
    ensures too_great { result ≡ DrawStatus.TooGreat → sink.new ≡ sink.old }

    // Where the source tells its bytes, and where the sink tells them too.
    ensures status { (script : List ℕ) → S.left source.old ≡ Some script → IsDrawFault result ⊎ (result ≡ draw_status (shown_of P.steps (P.state player) script)) }
    ensures drawn { (script before : List ℕ) → S.left source.old ≡ Some script → K.taken sink.old ≡ Some before
        → Draws (shown_of P.steps (P.state player) script) result before (K.taken sink.new) }
{
    let script = match read_script(alloc, source) {
        Ok(script) => script,
        Err(status) => return DrawStatus::Played(status),
    };
    match show(alloc, &mut player, script.as_slice()) {
        Ok(past) => write_picture(alloc, &past, sink),
        Err(_) => DrawStatus::Played(Status::NoMemory),
    }
}

// Writes a picture of what a script did, if it is not too much.
fn write_picture<K: Sink>(alloc: Global, past: &Past, sink: &mut K) -> DrawStatus
    ensures usage { result ≢ DrawStatus.Played Status.Usage }
    ensures read_fault { result ≢ DrawStatus.Played Status.ReadFault }
    ensures write_fault { result ≡ DrawStatus.Played Status.WriteFault → Rose (K.faults sink.old) (K.faults sink.new) }
    ensures too_great { result ≡ DrawStatus.TooGreat → sink.new ≡ sink.old }
    ensures status { IsDrawFault result ⊎ (result ≡ draw_status (seen past.now)) }
    ensures drawn { (before : List ℕ) → K.taken sink.old ≡ Some before → Draws (seen past.now) result before (K.taken sink.new) }
{
    let Some(status) = status_of(past) else {
        return DrawStatus::TooGreat;
    };
    match picture_of(alloc, past) {
        Ok(text) => DrawStatus::Played(write_last(sink, text.as_slice(), status)),
        Err(_) => DrawStatus::Played(Status::NoMemory),
    }
}

// How the script ended, if it is drawn.
fn status_of(past: &Past) -> Option<Status>
    ensures some { IfSome result (λ status. (draw_status (seen past.now) ≡ DrawStatus.Played status) × (past.now.ending ≢ Ending.TooGreat)) }
    ensures none { IfNone result (past.now.ending ≡ Ending.TooGreat) }
    ensures usage { result ≢ Some Status.Usage }
    ensures read_fault { result ≢ Some Status.ReadFault }
    ensures write_fault { result ≢ Some Status.WriteFault }
{
    match past.ending {
        Ending::TooGreat => None,
        Ending::Whole => Some(Status::Done),
        Ending::Stopped(cause) => Some(Status::Stopped {
            at: past.lines,
            cause,
        }),
        Ending::Bad => Some(Status::BadLine { at: past.lines }),
        Ending::Long => Some(Status::TooLong),
    }
}
