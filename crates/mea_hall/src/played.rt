ghost use Rattle.std.specs.Prelude.{◌≡◌, ◌≢◌, ◌+◌, ◌-◌, ◌^◌, ◌<◌, ◌≤◌, ◌∷◌, [], ◌++◌, ◌⊎◌, length, take, Some, None, OnOk, OnErr, IfErr, slice_get};
ghost use Rattle.mea_family.specs.declared.answer.Answer.{Answer as Reply};
ghost use Rattle.mea_events.specs.declared.event.Event.{Event as Line};
ghost use Rattle.mea_hall.specs.World.{cause_of, step};
ghost use Rattle.mea_hall.specs.Front.{Front, front_of, IsLegal};
ghost use Rattle.mea_hall.specs.History.{AreBalanced, LoseNoWake, GrantInOrder};
ghost use Rattle.mea_events.specs.Replies.{with_wakes};

use crate::hall::Hall;
use mea_events::{Event, Replies};
use mea_family::Stop;
use std::alloc::Global;

/// A list of events that was played up to the first that was refused, whose number is that of the replies.
#[derive(Drop)]
pub struct Played {
    pub hall: Hall,
    pub replies: Replies,
    pub ended: Result<(), Stop>,
}

/// Plays events from an empty hall, up to the first that has a cause for refusal or finds no memory.
pub fn replay(alloc: Global, events: &[Event]) -> Played
    ensures played { front_of (take (length result.replies.replies) events.now) ≡ record
        { world = result.hall.world; replies = result.replies.replies; cause = None } }
    ensures counted { result.hall.events ≡ length result.replies.replies }
    ensures handed_over { result.hall.wakes ≡ [] }
    ensures whole { OnOk result.ended (length result.replies.replies ≡ length events.now) }
    ensures caused { IfErr result.ended (λ stop. stop ≢ Stop.NoMemory
        → front_of events.now ≡ record { world = result.hall.world; replies = result.replies.replies; cause = Some stop }) }
    ensures refused { IfErr result.ended (λ stop. stop ≢ Stop.NoMemory → (event : Line) × (slice_get events.now (length result.replies.replies) ≡ Some event)
        × (cause_of result.hall.world event ≡ Some stop)) }
    ensures balance { AreBalanced events.now result.replies.replies }
    ensures woken { LoseNoWake events.now result.replies.replies }
    ensures order { GrantInOrder events.now result.replies.replies }
    ensures legal { IsLegal events.now → (result.ended ≡ Ok tt) ⊎ (result.ended ≡ Err Stop.NoMemory) }
{
    let mut hall = Hall::new(alloc);
    let mut replies = Replies::new(alloc);
    for event in events {
        match play_next(&mut hall, &mut replies, event) {
            Ok(()) => {}
            Err(stop) => {
                return Played {
                    hall,
                    replies,
                    ended: Err(stop),
                };
            }
        }
    }
    Played {
        hall,
        replies,
        ended: Ok(()),
    }
}

/// Plays one event, and keeps its reply with its wakes.
fn play_next(hall: &mut Hall, replies: &mut Replies, event: &Event) -> Result<(), Stop>
    requires few { hall.old.events < 2 ^ 64 - 1 }
    requires quiet { hall.old.wakes ≡ [] }
    ensures allowed { OnOk result (cause_of hall.old.world event.now ≡ None) }
    ensures hall { OnOk result (hall.new ≡ record { world = (step hall.old.world hall.old.events event.now).world; wakes = []; events = hall.old.events + 1 }) }
    ensures replies { OnOk result (replies.new.replies ≡ replies.old.replies ++ (step hall.old.world hall.old.events event.now).reply ∷ []) }
    ensures refused { IfErr result (λ stop. stop ≢ Stop.NoMemory → cause_of hall.old.world event.now ≡ Some stop) }
    ensures err { OnErr result ((hall.new ≡ hall.old) × (replies.new.replies ≡ replies.old.replies)) }
{
    replies.reserve(1, hall.registered())?;
    let answer = hall.act(event)?;
    replies.push(answer);
    hand_over(hall, replies);
    Ok(())
}

/// Moves the wakers that are ready to the last reply.
fn hand_over(hall: &mut Hall, replies: &mut Replies)
    requires room { length hall.old.wakes ≤ replies.old.spare }
    requires last { replies.old.replies ≢ [] }
    ensures hall { hall.new ≡ record hall.old { wakes = [] } }
    ensures replies { replies.new.replies ≡ with_wakes replies.old.replies hall.old.wakes }
{
    while let Some(waker) = hall.next_wake() {
        replies.add_wake(waker);
    }
}
