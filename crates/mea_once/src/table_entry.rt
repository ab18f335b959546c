ghost use Rattle.std.specs.Prelude.{ℕ, ◌≡◌, ◌+◌, ◌-◌, ◌<◌, ◌≤◌, ◌^◌, ◌++◌, [], Bool, true, false, cond, length, nat_lt, nat_eq, Some, None, IsSome, is_some, OnErr, IfOk, IfSome, Ok};
ghost use Rattle.std.specs.FinMap.{get, insert, remove, empty};
ghost use Rattle.mea_family.specs.declared.answer.Answer.{Answer};
ghost use Rattle.mea_by_name.specs.ByName.{Names};
ghost use Rattle.mea_once_core.specs.Keyed.{PollsKey, MayPollKey};
ghost use Rattle.mea_once_model.specs.Tables as tables;
ghost use Rattle.mea_once_model.specs.Tables.{is_this, without_key};
ghost use Rattle.mea_once.specs.Entries.{of_running, runs};
ghost use Rattle.mea_once.specs.KeyEntries.{Enters, FollowsKey, HandsKeys, IsSameTable, kept_with, closed, left_round, one_future_less, stayed, running_in, entry_in, IsOwn, runs_own, with_running, joined, new_round, stopped_waker};
ghost use Rattle.mea_once.specs.KeyParts.{StandsTable, SteppedTable, AreTogether, table_seen, table_keeps, key_future_seen};

use crate::key_future::KeyFuture;
use crate::poll_reply::{PENDING, PollReply};
use crate::round::Round;
use crate::table_core::{TableCore, ValueCore};
use mea_base::{NoMemory, Poll, Ready};
use mea_by_name::{ByName, NamedWaker, Roomy};
use mea_family::{Reply, Word};
use mea_once_core::{CellStage, KeyStage};
use mea_once_model::Initialiser;
use std::alloc::Global;
use std::marker::Model;

/// What a hall keeps of a map or a group.
///
/// The core's entries have numbers of their own, which are used again. A round is known by the number of the poll that made
/// it; it is there while the entry has a caller.
#[derive(Drop)]
pub struct TableEntry<C: TableCore> {
    core: C,
    // The current round of each key that is being computed, and all rounds.
    current: Roomy<u64>,
    rounds: ByName<Round>,
    // How many futures it has.
    futures: u128,
}

impl<C: TableCore> Model for TableEntry<C> {
    ghost use Rattle.mea_once.specs.KeyEntries.{KeptTable, kept_table_code};

    ghost Value = { KeptTable };

    ghost coded = { kept_table_code };

    ghost view = { λ e. record { keyed = C.seen_as e.core; current = e.current.things; rounds = e.rounds; futures = e.futures } };
}

impl<C: TableCore> TableEntry<C> {
    ghost use Rattle.mea_once.specs.KeyCores.{answers};
    ghost use Rattle.mea_once.specs.Entries.{left_by};

    /// A map or a group that has no future.
    pub fn new(alloc: Global, core: C) -> Self
        ensures { result ≡ record { keyed = C.seen_as core; current = empty; rounds = empty; futures = 0 } }
    {
        TableEntry {
            core,
            current: Roomy::new(alloc),
            rounds: ByName::new(alloc),
            futures: 0,
        }
    }

    /// The core of the map or the group. It takes no memory.
    pub fn core(&self) -> &C
        ensures { C.seen_as result.now ≡ self.now.keyed }
    {
        &self.core
    }

    /// Whether it has a future.
    pub fn has_futures(&self) -> bool
        ensures { result ≡ nat_lt 0 self.now.futures }
    {
        self.futures > 0
    }

    /// One future more.
    pub fn begin(&mut self)
        requires { self.old.futures + 1 < 2 ^ 128 }
        ensures { self.new ≡ record self.old { futures = self.old.futures + 1 } }
    {
        self.futures += 1;
    }

    // How many wakers its callers keep, and the initialiser of one round, for each of which there is room.
    fn keeps(&self, running: Option<NamedWaker>, ready: &Ready<u64>) -> usize
        requires { kept_with self.now running ≤ ready.now.registered }
        ensures { result ≡ kept_with self.now running }
    {
        let _room = ready.registered();
        let one = if running.is_some() { 1 } else { 0 };
        self.core.waiting() + one
    }

    // Hands on the wakers that the core has ready; of so many that were registered, as many are as are kept.
    fn hand_on(&mut self, running: Option<NamedWaker>, more: usize, ready: &mut Ready<u64>)
        requires fits { kept_with self.old running + length self.old.keyed.wakes ≤ more }
        requires room { more ≤ ready.old.registered }
        ensures { HandsKeys self.old running self.new more ready.old ready.new }
    {
        let mut gone = more - self.keeps(running, ready);
        while let Some(next) = self.core.next_wake() {
            ready.wake(next.waker);
            gone -= 1;
        }
        ready.unregister(gone);
    }

    // The round that a future is a caller of, under its name, if it is one.
    fn own_round(&self, round: Option<u64>) -> Option<(u64, Round)>
        requires { (n : ℕ) → round ≡ Some n → IsSome (get self.now.rounds n) }
        ensures { IsOwn self.now round result }
    {
        match round {
            Some(n) => Some((n, *self.rounds.at(n))),
            None => None,
        }
    }

    // The round that a poll of this future is at, of which it is a caller then, under its name: its own, or its key's current
    // one, or a new one under this number. On an error nothing has changed.
    fn enter(
        &mut self,
        number: u64,
        future: &KeyFuture,
        own: Option<(u64, Round)>,
    ) -> Result<(u64, Round), NoMemory>
        requires own { IsOwn self.old future.now.round own }
        requires there { (n : ℕ) → get self.old.current future.now.key ≡ Some n → IsSome (get self.old.rounds n) }
        requires few { (n : ℕ) (r : Round) → get self.old.rounds n ≡ Some r → r.callers + 1 < 2 ^ 128 }
        requires new { get self.old.rounds number ≡ None }
        ensures enters { IfOk result (λ at. Enters self.old number future.now at.0 self.new) }
        ensures round { IfOk result (λ at. get self.new.rounds at.0 ≡ Some at.1) }
        ensures err { OnErr result (self.new ≡ self.old) }
    {
        if let Some(at) = own {
            return Ok(at);
        }
        match self.current_of(future.key) {
            Some(n) => Ok((n, self.join(n))),
            None => match self.open(number, future.key) {
                Ok(round) => Ok((number, round)),
                Err(_) => Err(NoMemory),
            },
        }
    }

    // The key's current round, if it has one.
    fn current_of(&self, key: u64) -> Option<u64>
        ensures { result ≡ get self.now.current key }
    {
        match self.current.get(key) {
            Some(round) => Some(*round),
            None => None,
        }
    }

    // One caller more in a round, which is told.
    fn join(&mut self, n: u64) -> Round
        requires there { IsSome (get self.old.rounds n) }
        requires few { (r : Round) → get self.old.rounds n ≡ Some r → r.callers + 1 < 2 ^ 128 }
        ensures round { (r : Round) → get self.old.rounds n ≡ Some r → result ≡ joined r }
        ensures is { (r : Round) → get self.old.rounds n ≡ Some r → self.new ≡ record self.old { rounds = insert self.old.rounds n (joined r) } }
    {
        let round = self.rounds.at_mut(n);
        round.callers += 1;
        *round
    }

    // A new round is the key's current one, and is told. Room for it there is made first. On an error nothing has changed.
    fn open(&mut self, number: u64, key: u64) -> Result<Round, NoMemory>
        ensures ok { IfOk result (λ r. (r ≡ new_round key)
            × (self.new ≡ record self.old { rounds = insert self.old.rounds number (new_round key); current = insert self.old.current key number })) }
        ensures err { OnErr result (self.new ≡ self.old) }
    {
        let Ok(()) = self.current.reserve(1) else {
            return Err(NoMemory);
        };
        let round = Round::new(key);
        let Ok(()) = self.rounds.insert(number, round) else {
            return Err(NoMemory);
        };
        self.current.insert(key, number);
        Ok(round)
    }

    // Whether this is the key's current round.
    fn is_current(&self, key: u64, n: u64) -> bool
        ensures { result ≡ is_this n (get self.now.current key) }
    {
        match self.current.get(key) {
            Some(current) => *current == n,
            None => false,
        }
    }

    // The key has this round no more, where it was its current one.
    fn close(&mut self, key: u64, n: u64)
        ensures { self.new ≡ closed self.old key n }
    {
        if self.is_current(key, n) {
            let _ = self.current.remove(key);
        }
    }

    // A caller leaves its round, which is gone with the last of them.
    fn leave(&mut self, key: u64, n: u64, round: Round)
        requires there { IsSome (get self.old.rounds n) }
        requires some { 1 ≤ round.callers }
        ensures { self.new ≡ left_round self.old key n round }
    {
        if round.callers == 1 {
            let _ = self.rounds.remove(n);
            self.close(key, n);
        } else {
            *self.rounds.at_mut(n) = Round {
                callers: round.callers - 1,
                ..round
            };
        }
    }

    // A caller that waits on stays in its round, and its initialiser keeps the waker where it has the turn.
    fn stay(&mut self, n: u64, round: Round, future: &mut KeyFuture, waker: NamedWaker)
        requires { IsSome (get self.old.rounds n) }
        ensures entry { self.new ≡ record self.old { rounds = insert self.old.rounds n (stayed round future.old waker) } }
        ensures future { future.new ≡ record future.old { round = Some n } }
    {
        let entry = match future.call.stage {
            KeyStage::Calls { number } => number,
            _ => round.entry,
        };
        let running = running_after(&future.call.call.stage, round.running, waker);
        *self.rounds.at_mut(n) = Round {
            entry,
            running,
            ..round
        };
        future.round = Some(n);
    }

    // One future less.
    fn finish(&mut self)
        requires { 1 ≤ self.old.futures }
        ensures { self.new ≡ one_future_less self.old }
    {
        self.futures -= 1;
    }

    // What follows from a poll of a caller of this round.
    fn follow(
        &mut self,
        n: u64,
        round: Round,
        future: &mut KeyFuture,
        answer: Poll<Result<u64, u64>>,
        waker: NamedWaker,
    ) -> PollReply
        requires there { IsSome (get self.old.rounds n) }
        requires some { 1 ≤ round.callers }
        requires futures { 1 ≤ self.old.futures }
        ensures { FollowsKey answer self.old n round future.old waker result self.new future.new }
    {
        match answer {
            Poll::Pending => {
                self.stay(n, round, future, waker);
                PENDING
            }
            Poll::Ready(Ok(value)) => {
                self.close(future.key, n);
                self.leave(future.key, n, round);
                self.finish();
                PollReply {
                    answer: Reply(Word::Value(value)),
                    over: true,
                }
            }
            Poll::Ready(Err(error)) => {
                self.leave(future.key, n, round);
                self.finish();
                PollReply {
                    answer: Reply(Word::Failure(error)),
                    over: true,
                }
            }
        }
    }

    // A future that is no caller of its round yet leaves it again.
    fn undo(&mut self, n: u64, round: Round, future: &KeyFuture)
        requires there { IsSome (get self.old.rounds n) }
        requires some { 1 ≤ round.callers }
        ensures { self.new ≡ cond (is_some future.now.round) self.old (left_round self.old future.now.key n round) }
    {
        if future.round.is_none() {
            self.leave(future.key, n, round);
        }
    }

    // The initialiser of the future `waker` tells, which keeps a waker, keeps this one from now on.
    fn rewake(&mut self, n: u64, waker: NamedWaker)
        requires { IsSome (get self.old.rounds n) }
        ensures { (r : Round) → get self.old.rounds n ≡ Some r → self.new ≡ with_running self.old n r (Some waker) }
    {
        self.rounds.at_mut(n).running = Some(waker);
    }

    /// Polls a future, which is named `f`, by the event of this number. On an error nothing has changed.
    pub fn poll(
        &mut self,
        number: u64,
        f: u64,
        future: &mut KeyFuture,
        waker: u64,
        ready: &mut Ready<u64>,
    ) -> Result<PollReply, NoMemory>
        requires stands { StandsTable C.is_once self.old f future.old number }
        requires room { table_keeps self.old ≤ ready.old.registered }
        ensures steps { IfOk result (λ told. (s : StandsTable C.is_once self.old f future.old number) →
            SteppedTable C.is_once self.old s.fs number f future.old.table (left_by told.over future.new)
            (λ h. tables.poll C.is_once h number f waker (key_future_seen future.old) (table_seen self.old) future.old.round)
            told.answer self.new ready.old ready.new) }
        ensures err { OnErr result (IsSameTable self.old self.new × (future.new ≡ future.old) × (ready.new ≡ ready.old)) }
    {
        let named = NamedWaker { name: f, waker };
        let own = self.own_round(future.round);
        if runs(own, f) {
            let Some(n) = future.round else {
                return Ok(PENDING);
            };
            self.rewake(n, named);
            return Ok(PENDING);
        }
        let Ok(()) = ready.register() else {
            return Err(NoMemory);
        };
        let Ok((n, round)) = self.enter(number, future, own) else {
            ready.unregister(1);
            return Err(NoMemory);
        };
        let _room = ready.registered();
        let more = self.keeps(round.running, ready) + 1;
        let Ok(answer) = self.core.poll(&mut future.call, named) else {
            self.undo(n, round, future);
            ready.unregister(1);
            return Err(NoMemory);
        };
        let running = running_after(&future.call.call.stage, round.running, named);
        let told = self.follow(n, round, future, answer, named);
        self.hand_on(running, more, ready);
        Ok(told)
    }

    // The round keeps the waker of the initialiser of `f` no more, which is told, if it kept it.
    fn stop(&mut self, f: u64, n: u64) -> Option<u64>
        requires { IsSome (get self.old.rounds n) }
        ensures waker { (r : Round) → get self.old.rounds n ≡ Some r → result ≡ stopped_waker r.running f }
        ensures is { (r : Round) → get self.old.rounds n ≡ Some r → self.new ≡ with_running self.old n r (cond (runs r.running f) None r.running) }
    {
        let round = self.rounds.at_mut(n);
        let kept = round.running;
        round.running = stopped(kept, f);
        waker_of(kept, f)
    }

    /// Settles the initialiser of a future, which is named `f`. The waker that it keeps is ready.
    pub fn settle(
        &mut self,
        f: u64,
        future: &mut KeyFuture,
        outcome: Initialiser,
        ready: &mut Ready<u64>,
    )
        requires stands { (i : ℕ) × StandsTable C.is_once self.old f future.old i }
        requires room { table_keeps self.old ≤ ready.old.registered }
        ensures { (i : ℕ) (s : StandsTable C.is_once self.old f future.old i) →
            SteppedTable C.is_once self.old s.fs i f future.old.table (Some future.new)
            (λ h. tables.settle C.is_once h f outcome (key_future_seen future.old) (table_seen self.old) future.old.round)
            Answer.Done self.new ready.old ready.new }
    {
        future.call.call.init.settle(outcome);
        let Some(n) = future.round else {
            return;
        };
        if let Some(waker) = self.stop(f, n) {
            ready.wake(waker);
        }
    }

    /// Ends a future, which is named `f`.
    pub fn end(&mut self, f: u64, future: KeyFuture, ready: &mut Ready<u64>)
        requires stands { (i : ℕ) × StandsTable C.is_once self.old f future i }
        requires room { table_keeps self.old ≤ ready.old.registered }
        ensures { (i : ℕ) (s : StandsTable C.is_once self.old f future i) →
            SteppedTable C.is_once self.old s.fs i f future.table None
            (λ h. tables.end C.is_once h f (key_future_seen future) (Some (table_seen self.old)))
            Answer.Done self.new ready.old ready.new }
    {
        let Some(n) = future.round else {
            self.core.end(future.call);
            self.finish();
            return;
        };
        let round = *self.rounds.at(n);
        let more = self.keeps(round.running, ready);
        self.core.end(future.call);
        let running = stopped(round.running, f);
        self.leave(future.key, n, Round { running, ..round });
        self.finish();
        self.hand_on(running, more, ready);
    }

    /// The key has neither a value nor a current round any more; callers go on.
    pub fn discard(&mut self, key: u64)
        ensures { (fs : Names KeyFuture) → AreTogether C.is_once self.old fs →
            (table_seen self.new ≡ without_key key (table_seen self.old))
            × AreTogether C.is_once self.new fs × (table_keeps self.new ≡ table_keeps self.old)
            × (self.new.rounds ≡ self.old.rounds) × (self.new.futures ≡ self.old.futures) }
    {
        self.core.discard(key);
        let _ = self.current.take(key);
    }
}

// Whether the initialiser of `f`, whose own round this is, keeps a waker.
fn runs(own: Option<(u64, Round)>, f: u64) -> bool
    ensures { result ≡ runs_own own f }
{
    match own {
        Some((_, round)) => round.runs(f),
        None => false,
    }
}

// What is kept once the initialiser of `f` keeps no waker any more.
fn stopped(running: Option<NamedWaker>, f: u64) -> Option<NamedWaker>
    ensures { result ≡ cond (runs running f) None running }
{
    match running {
        Some(kept) => { if kept.name == f { None } else { Some(kept) } }
        None => None,
    }
}

// The waker that the initialiser of `f` keeps, if it is this.
fn waker_of(running: Option<NamedWaker>, f: u64) -> Option<u64>
    ensures { result ≡ stopped_waker running f }
{
    match running {
        Some(kept) => {
            if kept.name == f {
                Some(kept.waker)
            } else {
                None
            }
        }
        None => None,
    }
}

// The waker that the initialiser of a call at this stage keeps, which was polled with `waker`.
fn running_after(
    stage: &CellStage,
    running: Option<NamedWaker>,
    waker: NamedWaker,
) -> Option<NamedWaker>
    ensures { result ≡ running_in stage.now running waker }
{
    match stage {
        CellStage::Running => Some(waker),
        _ => running,
    }
}

impl<C: ValueCore> TableEntry<C> {
    /// The value of a key, if it has one.
    pub fn value(&self, key: u64) -> Option<u64>
        ensures { result ≡ get (table_seen self.now).values key }
    {
        self.core.value(key)
    }
}
