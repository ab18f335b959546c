ghost use Rattle.std.specs.Prelude.{◌≡◌, ◌↔◌, ◌⊎◌, ℕ, List, Some, map, string_bytes};
ghost use Rattle.mea_io.specs.Bytes.{Rose};
ghost use Rattle.mea_hall.specs.World.{empty_world};
ghost use Rattle.mea_marks.specs.Events.{ShowsStages};
ghost use Rattle.mea_marks.specs.Wakes.{ShowsWakes};
ghost use Rattle.mea_picture.specs.Drawing.{draw_status, IsDrawFault, Draws, EndsAlike};
ghost use Rattle.mea_draw.specs.Drawing.{hall_steps, drawing_of, played_status, IsDraw};
ghost use Rattle.mea_draw.specs.Model.{PollsAlike};

use crate::machine::DrawMachine;
use mea_io::{Sink, Source};
use mea_picture::{DrawStatus, draw_script};
use mea_script::Status;
use std::alloc::Global;

/// Of each script: the row of each thing shows how far it has come, an arrow stands for each wake of a thing and for nothing
/// else, what polls a thing polls the future that it is, and the script is drawn with the status of its playing. It does
/// nothing.
fn drawings_are_faithful()
    ensures stages { (script : List ℕ) → ShowsStages hall_steps empty_world script }
    ensures wakes { (script : List ℕ) → ShowsWakes hall_steps empty_world script }
    ensures polls { PollsAlike }
    ensures alike { (script : List ℕ) → EndsAlike (drawing_of script) (played_status script) }
{}

/// All that the program does, with the words of its command line after its name, of which there are none. It reads a
/// script, plays it on all families as `mea_play` does, and writes a picture of what it did. With any word it
/// reads and writes nothing.
///
/// It takes memory for the script, the picture and what the halls hold. A source or a sink that tells no bytes has the
/// clauses that speak of none.
pub fn run_draw<S: Source, K: Sink>(
    alloc: Global,
    words: &[String],
    source: &mut S,
    sink: &mut K,
) -> DrawStatus
    ensures usage { (result ≡ DrawStatus.Played Status.Usage) ↔ (¬ IsDraw (map string_bytes words.now)) }
    ensures untouched { result ≡ DrawStatus.Played Status.Usage → (source.new ≡ source.old) × (sink.new ≡ sink.old) }
    ensures read_fault { result ≡ DrawStatus.Played Status.ReadFault → Rose (S.faults source.old) (S.faults source.new) }
    ensures write_fault { result ≡ DrawStatus.Played Status.WriteFault → Rose (K.faults sink.old) (K.faults sink.new) }
    ensures too_great { result ≡ DrawStatus.TooGreat → sink.new ≡ sink.old }

    // Where the source tells its bytes, and where the sink tells them too.
    ensures status { (script : List ℕ) → IsDraw (map string_bytes words.now) → S.left source.old ≡ Some script → IsDrawFault result ⊎ (result ≡ draw_status (drawing_of script)) }
    ensures drawn { (script before : List ℕ) → IsDraw (map string_bytes words.now) → S.left source.old ≡ Some script → K.taken sink.old ≡ Some before
        → Draws (drawing_of script) result before (K.taken sink.new) }

    // The status is that with which the script is played, where there is not too much.
    ensures alike { (script : List ℕ) → EndsAlike (drawing_of script) (played_status script) }

    // Of each script: the row of each thing shows how far it has come, by the events and replies of the model.
    ensures stages { (script : List ℕ) → ShowsStages hall_steps empty_world script }

    // Of each script: one arrow where an event of the model wakes a thing by a waker, and none elsewhere.
    ensures wakes { (script : List ℕ) → ShowsWakes hall_steps empty_world script }

    // What the picture takes for a poll is what each family takes for one.
    ensures polls { PollsAlike }
{
    drawings_are_faithful();
    if !words.is_empty() {
        return DrawStatus::Played(Status::Usage);
    }
    let machine = DrawMachine::new(alloc);
    draw_script(alloc, machine, source, sink)
}
