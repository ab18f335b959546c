ghost use Rattle.std.specs.Prelude.{◌≡◌, ◌≢◌, ◌+◌, ◌*◌, ◌<◌, ◌≤◌, ◌^◌, ◌++◌, [], ◌∷◌, ℕ, List, length, None, Some, IfOk, OnOk, IfErr, codes, if◌then◌else◌};
ghost use Rattle.mea_family.specs.Family.{is_pending};
ghost use Rattle.mea_hall.specs.World.{empty_world, cause_of, step};
ghost use Rattle.mea_hall.specs.Front.{front_from, front_of};
ghost use Rattle.mea_text.specs.Text.{counted_line};
ghost use Rattle.mea_text.specs.Reply.{reply_text};
ghost use Rattle.mea_run.specs.Generated.{script_of, drawn_by, pendings, wakes_in, last_text, summary_of, PlaysRound, RefusesRound};

use crate::generator::{FIRST, LAST, first_state, round_of};
use mea_base::NoMemory;
use mea_events::Event;
use mea_family::{Answer, Stop};
use mea_hall::Hall;
use mea_text::{put_line, put_reply};
use std::alloc::Global;

/// What is counted of events that were played: the replies `pending`, and all wakes.
#[derive(Clone, Copy)]
struct Counts {
    pending: u64,
    wakes: u64,
}

/// What a generated script gave: how many events there are, what was counted, and the last reply.
#[derive(Drop)]
struct Made {
    events: u64,
    counts: Counts,
    last: Answer,
}

/// The summary of a generated script, each round of which is played as soon as it is made.
pub fn summary(alloc: Global, seed: u64, rounds: u32) -> Result<Vec<u8>, NoMemory>
    requires { rounds ≤ 300000 }
    ensures { IfOk result (λ text. text.items ≡ summary_of seed rounds) }
{
    match make(alloc, seed, rounds) {
        Ok(made) => text_of(alloc, &made),
        Err(_) => Err(NoMemory),
    }
}

fn text_of(alloc: Global, made: &Made) -> Result<Vec<u8>, NoMemory>
    ensures { IfOk result (λ text. text.items ≡ counted_line (codes "events") made.now.events ++ counted_line (codes "pending") made.now.counts.pending ++ counted_line (codes "wakes") made.now.counts.wakes ++ reply_text made.now.last []) }
{
    let mut text = Vec::new(alloc);
    put_line(&mut text, b"events", made.events)?;
    put_line(&mut text, b"pending", made.counts.pending)?;
    put_line(&mut text, b"wakes", made.counts.wakes)?;
    put_reply(&mut text, &made.last, &[])?;
    Ok(text)
}

/// Makes and plays a generated script. It is refused for no cause.
fn make(alloc: Global, seed: u64, rounds: u32) -> Result<Made, Stop>
    requires { rounds ≤ 300000 }
    ensures events { IfOk result (λ made. made.events ≡ length (script_of seed rounds)) }
    ensures pending { IfOk result (λ made. made.counts.pending ≡ pendings (front_of (script_of seed rounds)).replies) }
    ensures wakes { IfOk result (λ made. made.counts.wakes ≡ wakes_in (front_of (script_of seed rounds)).replies) }
    ensures last { IfOk result (λ made. reply_text made.last [] ≡ last_text (front_of (script_of seed rounds)).replies) }
    ensures no_cause { IfErr result (λ stop. stop ≡ Stop.NoMemory) }
{
    let mut hall = Hall::new(alloc);
    make_on(&mut hall, seed, rounds)
}

/// Plays a generated script on a new hall, round by round as it is made.
fn make_on(hall: &mut Hall, seed: u64, rounds: u32) -> Result<Made, Stop>
    requires rounds { rounds ≤ 300000 }
    requires hall { hall.old ≡ record { world = empty_world; wakes = []; events = 0 } }
    ensures events { IfOk result (λ made. made.events ≡ length (script_of seed rounds)) }
    ensures pending { IfOk result (λ made. made.counts.pending ≡ pendings (front_of (script_of seed rounds)).replies) }
    ensures wakes { IfOk result (λ made. made.counts.wakes ≡ wakes_in (front_of (script_of seed rounds)).replies) }
    ensures last { IfOk result (λ made. reply_text made.last [] ≡ last_text (front_of (script_of seed rounds)).replies) }
    ensures no_cause { IfErr result (λ stop. stop ≡ Stop.NoMemory) }
{
    let mut counts = Counts {
        pending: 0,
        wakes: 0,
    };
    match play_all(hall, &mut counts, &[FIRST]) {
        Ok(()) => {}
        Err(stop) => return Err(stop),
    }
    let mut state = first_state(seed);
    for number in 0..rounds {
        state = match play_round(hall, &mut counts, state, u64::from(number)) {
            Ok(next) => next,
            Err(stop) => return Err(stop),
        };
    }
    let last = match play(hall, &mut counts, &LAST) {
        Ok(answer) => answer,
        Err(stop) => return Err(stop),
    };
    Ok(Made {
        events: hall.events(),
        counts,
        last,
    })
}

/// Makes a round, plays it, and answers the state after it.
fn play_round(hall: &mut Hall, counts: &mut Counts, state: u64, number: u64) -> Result<u64, Stop>
    requires small { state < 2147483648 }
    requires number { number < 2 ^ 32 }
    requires quiet { hall.old.wakes ≡ [] }
    requires few { hall.old.events + 9 ≤ 4194304 }
    requires pending_fits { counts.old.pending ≤ hall.old.events }
    requires wakes_fit { counts.old.wakes ≤ 4194304 * hall.old.events }
    ensures state { IfOk result (λ next. next ≡ drawn_by 4 state) }
    ensures small { IfOk result (λ next. next < 2147483648) }
    ensures played { OnOk result (PlaysRound hall.old counts.old.pending counts.old.wakes state number hall.new counts.new.pending counts.new.wakes) }
    ensures pending_fits { OnOk result (counts.new.pending ≤ hall.new.events) }
    ensures wakes_fit { OnOk result (counts.new.wakes ≤ 4194304 * hall.new.events) }
    ensures refused { IfErr result (λ stop. RefusesRound hall.old state number stop) }
{
    let (round, next) = round_of(state, number);
    match play_all(hall, counts, &round) {
        Ok(()) => Ok(next),
        Err(stop) => Err(stop),
    }
}

/// Plays events, and counts what they give.
fn play_all(hall: &mut Hall, counts: &mut Counts, events: &[Event]) -> Result<(), Stop>
    requires quiet { hall.old.wakes ≡ [] }
    requires few { hall.old.events + length events.now ≤ 4194304 }
    requires pending_fits { counts.old.pending ≤ hall.old.events }
    requires wakes_fit { counts.old.wakes ≤ 4194304 * hall.old.events }
    ensures allowed { OnOk result ((front_from hall.old.world hall.old.events events.now).cause ≡ None) }
    ensures hall { OnOk result (hall.new ≡ record { world = (front_from hall.old.world hall.old.events events.now).world; wakes = []; events = hall.old.events + length events.now }) }
    ensures pending { OnOk result (counts.new.pending ≡ counts.old.pending + pendings (front_from hall.old.world hall.old.events events.now).replies) }
    ensures wakes { OnOk result (counts.new.wakes ≡ counts.old.wakes + wakes_in (front_from hall.old.world hall.old.events events.now).replies) }
    ensures pending_fits { OnOk result (counts.new.pending ≤ hall.new.events) }
    ensures wakes_fit { OnOk result (counts.new.wakes ≤ 4194304 * hall.new.events) }
    ensures refused { IfErr result (λ stop. stop ≢ Stop.NoMemory → (front_from hall.old.world hall.old.events events.now).cause ≡ Some stop) }
{
    for event in events {
        match play(hall, counts, event) {
            Ok(_) => {}
            Err(stop) => return Err(stop),
        }
    }
    Ok(())
}

/// Plays an event, and counts what it gives.
#[inline(always)]
fn play(hall: &mut Hall, counts: &mut Counts, event: &Event) -> Result<Answer, Stop>
    requires quiet { hall.old.wakes ≡ [] }
    requires few { hall.old.events < 4194304 }
    requires pending_fits { counts.old.pending ≤ hall.old.events }
    requires wakes_fit { counts.old.wakes ≤ 4194304 * hall.old.events }
    ensures reply { IfOk result (λ answer. answer ≡ (step hall.old.world hall.old.events event.now).reply.0) }
    ensures allowed { OnOk result (cause_of hall.old.world event.now ≡ None) }
    ensures hall { OnOk result (hall.new ≡ record { world = (step hall.old.world hall.old.events event.now).world; wakes = []; events = hall.old.events + 1 }) }
    ensures pending { OnOk result (counts.new.pending ≡ counts.old.pending + (if is_pending (step hall.old.world hall.old.events event.now).reply.0 then 1 else 0)) }
    ensures wakes { OnOk result (counts.new.wakes ≡ counts.old.wakes + length (step hall.old.world hall.old.events event.now).reply.1) }
    ensures pending_fits { OnOk result (counts.new.pending ≤ hall.new.events) }
    ensures wakes_fit { OnOk result (counts.new.wakes ≤ 4194304 * hall.new.events) }
    ensures refused { IfErr result (λ stop. stop ≢ Stop.NoMemory → cause_of hall.old.world event.now ≡ Some stop) }
{
    let registered = hall.registered();
    let answer = hall.act(event)?;
    counts.pending += one_if_pending(&answer);
    counts.wakes += drain(hall, registered);
    Ok(answer)
}

fn one_if_pending(answer: &Answer) -> u64
    ensures { result ≡ (if is_pending answer.now then 1 else 0) }
{
    if matches!(answer, Answer::Pending) {
        1
    } else {
        0
    }
}

/// Takes the wakers that are ready, and answers their number.
fn drain(hall: &mut Hall, most: usize) -> u64
    requires { length hall.old.wakes ≤ most }
    ensures hall { hall.new ≡ record hall.old { wakes = [] } }
    ensures count { result ≡ length hall.old.wakes }
    ensures few { result ≤ most }
{
    let mut count = 0;
    while hall.next_wake().is_some() {
        count += 1;
    }
    count
}
