ghost use Rattle.std.specs.Prelude.{◌≡◌, ◌≢◌, ◌+◌, ◌-◌, ◌<◌, ◌≤◌, ◌^◌, ◌⊎◌, ◌∷◌, [], length, None, Some, IsOk, IfOk, OnOk, OnErr, IfErr, IfSome, option_copied, slice_get, vec_len, vec_capacity, true, false, ℕ, if◌then◌else◌};
ghost use Rattle.std.specs.Option.{option_map};
ghost use Rattle.mea_family.specs.declared.stop.Stop.TheVariants as stops;
ghost use Rattle.mea_events.specs.Replies.{with_wakes};
ghost use Rattle.mea_events.specs.declared.sem_event.SemEvent.TheVariants as lines;
ghost use Rattle.mea_sem_model.specs.Cause.{cause_of};
ghost use Rattle.mea_sem_model.specs.Step.{step, ledger_of};
ghost use Rattle.mea_recorded.specs.History.{History, IsHistory, hall_after, with_event, answer_at};
ghost use Rattle.mea_recorded.specs.Things.{ends, living_after, wakes_more};

use crate::event_sizes::{ends, makes, registers};
use crate::receipt::{Receipt, Refused};
use mea_base::NoMemory;
use mea_events::{Replies, SemEvent};
use mea_family::{Answer, Ledger, Stop};
use mea_sem::SemHall;
use std::alloc::Global;
use std::marker::Model;

/// Semaphores beside the history of all that was played on them. The first entry makes semaphore 0.
///
/// Its memory grows with its entries. For each future and permit that lives there is a place for the entry of
/// its end, so that the end takes no memory.
pub struct Recorded {
    hall: SemHall,
    events: Vec<SemEvent>,
    replies: Replies,
    // How many futures and permits live, or more: a future that forgets what it takes is counted for ever.
    living: usize,
}

impl Model for Recorded {
    ghost use Rattle.std.specs.Prelude.{◌-◌, vec_len, vec_capacity};
    ghost use Rattle.mea_recorded.specs.History.{History};
    ghost use Rattle.mea_recorded.specs.Kept.{IsKeptHistory};

    ghost Value = { History };

    ghost view = { λ r. record { events = r.events.items; replies = r.replies.replies } };

    ghost invariant = { λ r. IsKeptHistory r.hall (record { events = r.events.items; replies = r.replies.replies }) r.living (vec_capacity r.events - vec_len r.events) r.replies };
}

// Written out: a derived one is proved anew in each crate that hands a value of this type to a generic function.
impl Drop for Recorded {
    fn drop(self) {
        let Recorded {
            hall: _,
            events: _,
            replies: _,
            living: _,
        } = self;
    }
}

impl Recorded {
    /// A history whose first entry makes semaphore 0 with these permits.
    pub fn new(alloc: Global, permits: usize) -> Result<Recorded, NoMemory>
        ensures { IfOk result (λ r. r ≡ with_event (record { events = []; replies = [] }) (lines.New permits)) }
    {
        let mut hall = SemHall::new(alloc);
        let mut events = Vec::new(alloc);
        let mut replies = Replies::new(alloc);
        let event = SemEvent::New(permits as u64);
        reserve(&mut events, &mut replies, 0, 0)?;
        match hall.act(0, &event) {
            Ok(answer) => {
                events.push_reserved(event);
                replies.push(answer);
                Ok(Recorded {
                    hall,
                    events,
                    replies,
                    living: 0,
                })
            }
            Err(_) => Err(NoMemory),
        }
    }

    /// How many entries the history has. It takes no memory.
    pub fn entries(&self) -> u64
        ensures count { result ≡ length self.now.events }
        ensures history { IsHistory self.now }
    {
        self.events.len() as u64
    }

    /// The event of an entry. It takes no memory.
    pub fn entry(&self, number: u64) -> Option<&SemEvent>
        ensures { option_copied result ≡ slice_get self.now.events number }
    {
        self.events.get(number as usize)
    }

    /// The answer of an entry. It takes no memory.
    pub fn answer(&self, number: u64) -> Option<&Answer>
        ensures { option_copied result ≡ option_map (λ r. r.0) (slice_get self.now.replies number) }
    {
        if number < self.replies.len() as u64 {
            Some(self.replies.answer(number as usize))
        } else {
            None
        }
    }

    /// The event and the answer of an entry. It takes no memory.
    pub fn entry_at(&self, number: u64) -> (SemEvent, Answer)
        requires { number < length self.now.events }
        ensures event { slice_get self.now.events number ≡ Some result.0 }
        ensures answer { answer_at self.now number ≡ Some result.1 }
    {
        let at = number as usize;
        (self.events[at], *self.replies.answer(at))
    }

    /// Why an event would be refused, but for want of memory; None where it would not be. It takes no memory.
    pub fn cause(&self, event: &SemEvent) -> Option<Stop>
        ensures { result ≡ cause_of (hall_after self.now.events) event.now }
    {
        self.hall.cause(event)
    }

    /// Plays an event as the next entry. A cause for refusal comes before want of memory, and a refusal leaves
    /// the history. The end of a future or a permit that lives never answers want of memory.
    pub fn act_on(&mut self, event: &SemEvent) -> Result<Receipt, Refused>
        ensures entry { IfOk result (λ r. (r.number ≡ length self.old.events) × (self.new ≡ with_event self.old event.now)) }
        ensures answer { IfOk result (λ r. r.answer ≡ (step (hall_after self.old.events) (length self.old.events) event.now).reply) }
        ensures allowed { OnOk result (cause_of (hall_after self.old.events) event.now ≡ None) }
        ensures refused { IfErr result (λ r. (r.at ≡ length self.old.events)
            × ((cause_of (hall_after self.old.events) event.now ≡ Some r.stop) ⊎ ((cause_of (hall_after self.old.events) event.now ≡ None) × (r.stop ≡ stops.NoMemory)))) }
        ensures no_memory { ends event.now ≡ true → IfErr result (λ r. cause_of (hall_after self.old.events) event.now ≡ Some r.stop) }
        ensures err { OnErr result (self.new ≡ self.old) }
    {
        let Recorded {
            hall,
            events,
            replies,
            living,
        } = self;
        let at = events.len() as u64;
        let waits = hall.registered();
        let Some(after) = make_room(events, replies, *living, waits, event) else {
            let stop = hall.cause(event).unwrap_or(Stop::NoMemory);
            return Err(Refused { stop, at });
        };
        let answer = match hall.act(at, event) {
            Ok(answer) => answer,
            Err(stop) => return Err(Refused { stop, at }),
        };
        events.push_reserved(*event);
        replies.push(answer);
        *living = after;
        hand_over(hall, replies);
        Ok(Receipt { number: at, answer })
    }

    /// The account of a semaphore after all entries. It takes no memory.
    pub fn into_ledger(self, name: u64) -> Result<Ledger, Stop>
        ensures told { IfOk result (λ told. told ≡ ledger_of (hall_after self.events) name) }
        ensures allowed { OnOk result (cause_of (hall_after self.events) (lines.Ledger name) ≡ None) }
        ensures refused { IfErr result (λ stop. cause_of (hall_after self.events) (lines.Ledger name) ≡ Some stop) }
    {
        let Recorded {
            mut hall,
            events,
            replies: _,
            living: _,
        } = self;
        match hall.act(events.len() as u64, &SemEvent::Ledger(name)) {
            Ok(Answer::Account(ledger)) => Ok(ledger),
            Ok(_) => Err(Stop::Unknown),
            Err(stop) => Err(stop),
        }
    }
}

/// Makes room for an entry, and for those of the ends of all that lives after it, whose number it answers; `waits`
/// futures wait before it.
fn make_room(
    events: &mut Vec<SemEvent>,
    replies: &mut Replies,
    living: usize,
    waits: usize,
    event: &SemEvent,
) -> Option<usize>
    ensures after { IfSome result (λ after. after ≡ living_after living event.now) }
    ensures places { IfSome result (λ after. after + 1 ≤ vec_capacity events.new - vec_len events.new) }
    ensures answers { IfSome result (λ after. after + 1 ≤ replies.new.room) }
    ensures wakes { IfSome result (λ after. waits + wakes_more event.now ≤ replies.new.spare) }
    ensures grows { (vec_capacity events.old ≤ vec_capacity events.new) × (replies.old.room ≤ replies.new.room) × (replies.old.spare ≤ replies.new.spare) }
    ensures rest_kept { (events.new.items ≡ events.old.items) × (replies.new.replies ≡ replies.old.replies) }
    ensures ends { ends event.now ≡ true → 1 ≤ living → living ≤ vec_capacity events.old - vec_len events.old → living ≤ replies.old.room → waits ≤ replies.old.spare → result ≢ None }
{
    let after = living_after(living, event)?;
    let waits = waits.checked_add(usize::from(registers(event)))?;
    match reserve(events, replies, after, waits) {
        Ok(()) => Some(after),
        Err(NoMemory) => None,
    }
}

/// How many things live at most after an event, of at most so many before it; None where their number has no type.
fn living_after(living: usize, event: &SemEvent) -> Option<usize>
    ensures count { IfSome result (λ after. after ≡ living_after living event.now) }
    ensures ends { ends event.now ≡ true → result ≢ None }
{
    if ends(event) {
        Some(living.saturating_sub(1))
    } else {
        living.checked_add(usize::from(makes(event)))
    }
}

/// Makes room for one entry, so many ends after it, and so many wakes.
fn reserve(
    events: &mut Vec<SemEvent>,
    replies: &mut Replies,
    ends: usize,
    wakes: usize,
) -> Result<(), NoMemory>
    ensures places { OnOk result (ends + 1 ≤ vec_capacity events.new - vec_len events.new) }
    ensures answers { OnOk result (ends + 1 ≤ replies.new.room) }
    ensures wakes { OnOk result (wakes ≤ replies.new.spare) }
    ensures grows { (vec_capacity events.old ≤ vec_capacity events.new) × (replies.old.room ≤ replies.new.room) × (replies.old.spare ≤ replies.new.spare) }
    ensures rest_kept { (events.new.items ≡ events.old.items) × (replies.new.replies ≡ replies.old.replies) }
    ensures succeeds { ends + 1 < 2 ^ 64 → ends + 1 ≤ vec_capacity events.old - vec_len events.old → ends + 1 ≤ replies.old.room → wakes ≤ replies.old.spare → IsOk result }
{
    let Some(places) = ends.checked_add(1) else {
        return Err(NoMemory);
    };
    if events.reserve(places).is_err() {
        return Err(NoMemory);
    }
    replies.reserve(places, wakes)
}

/// Moves the wakers that are ready to the last reply.
fn hand_over(hall: &mut SemHall, replies: &mut Replies)
    requires room { length hall.old.wakes ≤ replies.old.spare }
    requires last { replies.old.replies ≢ [] }
    ensures hall { hall.new ≡ record hall.old { wakes = [] } }
    ensures replies { replies.new.replies ≡ with_wakes replies.old.replies hall.old.wakes }
    ensures room { replies.new.room ≡ replies.old.room }
    ensures spare { replies.new.spare + length hall.old.wakes ≡ replies.old.spare }
{
    while let Some(waker) = hall.next_wake() {
        replies.add_wake(waker);
    }
}
