ghost use Rattle.std.specs.Prelude.{◌≡◌, ◌+◌, ◌*◌, ◌/◌, ◌%◌, ◌<◌, ◌≤◌, ◌^◌, ◌++◌, ◌∷◌, [], ℕ, List, length, IfOk, OnOk};
ghost use Rattle.mea_hall.specs.Front.{front_of, IsLegal};
ghost use Rattle.mea_run.specs.Generated.{drawn, drawn_by, first_state, round_of, script_of, begun_by, PollsWait, pendings, IsBetweenRounds};

use mea_base::NoMemory;
use mea_events::{Event, SemEvent};
use std::alloc::Global;

/// The first event of a generated script: a semaphore without permits.
pub const FIRST: Event = Event::Sem(SemEvent::New(0));

/// The last event of a generated script: the account of the semaphore.
pub const LAST: Event = Event::Sem(SemEvent::Ledger(0));

/// No generated script has a cause for refusal, and each poll in it replies `pending`, two in each round of
/// nine events. The reason is what each round leaves: a semaphore with no free permit, and nothing else.
pub fn generated_scripts_are_legal()
    ensures legal { (seed rounds : ℕ) → IsLegal (script_of seed rounds) }
    ensures polls { (seed rounds : ℕ) → PollsWait (script_of seed rounds) (front_of (script_of seed rounds)).replies }
    ensures rounds { (seed rounds : ℕ) → IsBetweenRounds (front_of (begun_by seed rounds)).world.semaphores }
    ensures events { (seed rounds : ℕ) → length (script_of seed rounds) ≡ 9 * rounds + 2 }
    ensures pending { (seed rounds : ℕ) → pendings (front_of (script_of seed rounds)).replies ≡ 2 * rounds }
{}

/// The generated script.
pub fn make_script(alloc: Global, seed: u64, rounds: u32) -> Result<Vec<Event>, NoMemory>
    ensures { IfOk result (λ script. script.items ≡ script_of seed rounds) }
{
    let mut script = Vec::new(alloc);
    append(&mut script, &[FIRST])?;
    let mut state = first_state(seed);
    for number in 0..rounds {
        let (round, next) = round_of(state, u64::from(number));
        append(&mut script, &round)?;
        state = next;
    }
    append(&mut script, &[LAST])?;
    Ok(script)
}

fn append(script: &mut Vec<Event>, events: &[Event]) -> Result<(), NoMemory>
    ensures { OnOk result (script.new.items ≡ script.old.items ++ events.now) }
{
    match script.extend_from_slice(events) {
        Ok(()) => Ok(()),
        Err(_) => Err(NoMemory),
    }
}

/// The state with which a generated script begins.
pub fn first_state(seed: u64) -> u64
    ensures state { result ≡ first_state seed }
    ensures small { result < 2147483648 }
{
    seed % 2_147_483_648
}

/// The events of a round, and the state after it.
pub fn round_of(state: u64, number: u64) -> ([Event; 9], u64)
    requires small { state < 2147483648 }
    requires few { number < 2 ^ 32 }
    ensures events { result.0 ≡ round_of state number }
    ensures state { result.1 ≡ drawn_by 4 state }
    ensures small { result.1 < 2147483648 }
{
    let first = drawn(state);
    let second = drawn(first);
    let third = drawn(second);
    let fourth = drawn(third);
    let name = 1 + 9 * number;
    let round = [
        Event::Sem(SemEvent::Acq(0, 1 + first / 65_536 % 4)),
        Event::Sem(SemEvent::Poll(name, 2 * number)),
        Event::Sem(SemEvent::Acqo(0, 1 + second / 65_536 % 4)),
        Event::Sem(SemEvent::Poll(name + 2, 2 * number + 1)),
        Event::Sem(SemEvent::Forgetx(0, third / 65_536 % 3)),
        Event::Sem(SemEvent::Release(0, fourth / 65_536 % 8)),
        Event::Sem(SemEvent::End(name)),
        Event::Sem(SemEvent::End(name + 2)),
        Event::Sem(SemEvent::Forget(0, u64::MAX)),
    ];
    (round, fourth)
}

/// The state after one draw.
fn drawn(state: u64) -> u64
    requires { state < 2147483648 }
    ensures state { result ≡ drawn state }
    ensures small { result < 2147483648 }
{
    (1_103_515_245 * state + 12_345) % 2_147_483_648
}
