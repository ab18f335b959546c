ghost use Rattle.std.specs.Prelude.{ℕ, ◌≡◌, ◌+◌, ◌-◌, ◌<◌, ◌≤◌, ◌^◌, ◌++◌, [], nat_lt, length, map, cond, true, false, Some, None, if◌then◌else◌};
ghost use Rattle.mea_family.specs.declared.answer.Answer.{Answer};
ghost use Rattle.mea_sem_core.specs.Core.{held_of};
ghost use Rattle.mea_once_model.specs.Cells.{init_of, is_alone, settled, settle, end, value_after, reply_to};
ghost use Rattle.mea_once.specs.Cores.{IsSoundCell, TurnFits, TurnIsQuiet};
ghost use Rattle.mea_once.specs.Parts.{cell_seen, future_seen, fits, is_caller, is_wait, Stands, Stepped, PollsCell};

use crate::errands::{found_full, has_filled, is_alone, one_if_alone, settled};
use crate::future_entry::FutureEntry;
use crate::poll_reply::{PENDING, PollReply};
use crate::scripted::Scripted;
use crate::turn_core::{TurnCore, WaitCore, WholeCore};
use mea_base::{NoMemory, Poll, Ready};
use mea_by_name::NamedWaker;
use mea_family::{Reply, Word};
use mea_once_core::{CellTurn, Init};
use mea_once_model::{Errand, Initialiser, WholeUse};
use std::marker::Model;

/// What a hall keeps of a cell.
#[derive(Drop)]
pub struct CellEntry<C: TurnCore> {
    core: C,
    // The waker that the initialiser of the caller whose turn it is keeps, or of the future that uses the cell alone.
    running: Option<NamedWaker>,
    // How many futures it has, and how many of them use it alone.
    futures: u128,
    alone: u128,
}

impl<C: TurnCore> Model for CellEntry<C> {
    ghost use Rattle.mea_once.specs.Entries.{KeptCell, kept_cell_code};

    ghost Value = { KeptCell };

    ghost coded = { kept_cell_code };

    ghost view = { λ e. record { cell = C.seen_as e.core; running = e.running; futures = e.futures; alone = e.alone } };
}

impl<C: TurnCore> CellEntry<C> {
    ghost use Rattle.mea_once.specs.Entries.{begun, finished, stopped, waking, runs, of_running, keeps, HandsOn, Ran, Follows};

    /// A cell that has no future.
    pub fn new(core: C) -> Self
        ensures { result ≡ record { cell = C.seen_as core; running = None; futures = 0; alone = 0 } }
    {
        CellEntry {
            core,
            running: None,
            futures: 0,
            alone: 0,
        }
    }

    /// The core of the cell. It takes no memory.
    pub fn core(&self) -> &C
        ensures { C.seen_as result.now ≡ self.now.cell }
    {
        &self.core
    }

    /// Whether it has a future.
    pub fn has_futures(&self) -> bool
        ensures { result ≡ nat_lt 0 self.now.futures }
    {
        self.futures > 0
    }

    /// Whether it has a future that uses it alone.
    pub fn is_alone(&self) -> bool
        ensures { result ≡ nat_lt 0 self.now.alone }
    {
        self.alone > 0
    }

    /// Whether a future of it is in the way of a new one that does this.
    pub fn is_closed_to(&self, errand: Errand) -> bool
        ensures { result ≡ nat_lt 0 (if is_alone errand then self.now.futures else self.now.alone) }
    {
        if is_alone(errand) {
            self.has_futures()
        } else {
            self.is_alone()
        }
    }

    /// One future more.
    pub fn begin(&mut self, errand: Errand)
        requires futures { self.old.futures + 1 < 2 ^ 128 }
        requires alone { self.old.alone + 1 < 2 ^ 128 }
        ensures { self.new ≡ begun self.old errand }
    {
        self.futures += 1;
        self.alone += one_if_alone(errand);
    }

    // One future less, named `f`, whose initialiser keeps no waker any more.
    fn finish(&mut self, f: u64, errand: Errand)
        requires futures { 1 ≤ self.old.futures }
        requires alone { cond (is_alone errand) 1 0 ≤ self.old.alone }
        ensures { self.new ≡ finished (stopped self.old f) errand }
    {
        if self.runs(f) {
            self.running = None;
        }
        self.futures -= 1;
        self.alone -= one_if_alone(errand);
    }

    // Whether the initialiser of `f` keeps a waker.
    fn runs(&self, f: u64) -> bool
        ensures { result ≡ runs self.now.running f }
    {
        match self.running {
            Some(kept) => kept.name == f,
            None => false,
        }
    }

    /// How many wakers are kept, for each of which there is room.
    pub fn keeps(&self, ready: &Ready<u64>) -> usize
        requires { keeps self.now ≤ ready.now.registered }
        ensures { result ≡ keeps self.now }
    {
        let _room = ready.registered();
        let running = if self.running.is_some() { 1 } else { 0 };
        self.core.waiting() + running + self.core.registered()
    }

    // Hands on the wakers that the core has ready; of so many that were registered, as many are as are kept.
    fn hand_on(&mut self, more: usize, ready: &mut Ready<u64>)
        requires fits { keeps self.old + length self.old.cell.permit.wakes ≤ more }
        requires room { more ≤ ready.old.registered }
        ensures { HandsOn self.old self.new more ready.old ready.new }
    {
        let mut gone = more - self.keeps(ready);
        while let Some(next) = self.core.next_wake() {
            ready.wake(next.waker);
            gone -= 1;
        }
        ready.unregister(gone);
    }

    // The initialiser of the future whose turn it is runs.
    fn run(&mut self, future: &mut FutureEntry, waker: NamedWaker) -> PollReply
        requires held { 1 ≤ held_of self.old.cell.permit }
        requires fits { fits C.is_once future.old.errand ≡ true }
        requires quiet { self.old.cell.permit.wakes ≡ [] }
        requires futures { 1 ≤ self.old.futures }
        requires alone { cond (is_alone future.old.errand) 1 0 ≤ self.old.alone }
        ensures ran { Ran (init_of future.old.errand) self.old waker future.old.errand result self.new }
        ensures stays { result.over ≡ false → future.new ≡ future.old }
    {
        match Scripted::new(future.errand).poll(waker) {
            Poll::Pending => {
                self.running = Some(waker);
                PENDING
            }
            Poll::Ready(Ok(value)) => {
                self.core.fill(&mut future.stage, value);
                self.finish(waker.name, future.errand);
                PollReply {
                    answer: has_filled(future.errand, value),
                    over: true,
                }
            }
            Poll::Ready(Err(error)) => {
                self.core.give_up(&mut future.stage);
                self.finish(waker.name, future.errand);
                PollReply {
                    answer: Reply(Word::Failure(error)),
                    over: true,
                }
            }
        }
    }

    // What follows from a poll for one's turn.
    fn follow(
        &mut self,
        future: &mut FutureEntry,
        turn: CellTurn<NamedWaker>,
        waker: NamedWaker,
    ) -> PollReply
        requires turn { TurnFits turn self.old.cell }
        requires fits { fits C.is_once future.old.errand ≡ true }
        requires quiet { TurnIsQuiet turn self.old.cell }
        requires futures { 1 ≤ self.old.futures }
        requires alone { cond (is_alone future.old.errand) 1 0 ≤ self.old.alone }
        ensures follows { Follows turn self.old waker future.old.errand result self.new }
        ensures stays { result.over ≡ false → future.new ≡ future.old }
    {
        match turn {
            CellTurn::Pending => PENDING,
            CellTurn::Full => {
                let value = self.core.value().unwrap();
                self.finish(waker.name, future.errand);
                PollReply {
                    answer: found_full(future.errand, value),
                    over: true,
                }
            }
            CellTurn::Mine(_) => self.run(future, waker),
        }
    }

    /// Polls a caller, which is named `f`. On an error nothing has changed.
    pub fn poll_call(
        &mut self,
        f: u64,
        future: &mut FutureEntry,
        waker: u64,
        ready: &mut Ready<u64>,
    ) -> Result<PollReply, NoMemory>
        requires stands { Stands C.is_once self.old f future.old }
        requires caller { is_caller future.old.errand ≡ true }
        requires room { keeps self.old ≤ ready.old.registered }
        ensures { PollsCell C.is_once self.old f future.old waker ready.old result self.new future.new ready.new }
    {
        let named = NamedWaker { name: f, waker };
        if self.runs(f) {
            self.running = Some(named);
            return Ok(PENDING);
        }
        let Ok(()) = ready.register() else {
            return Err(NoMemory);
        };
        let _room = ready.registered();
        let more = self.keeps(ready) + 1;
        let Ok(turn) = self.core.poll_turn(&mut future.stage, named) else {
            ready.unregister(1);
            return Err(NoMemory);
        };
        let told = self.follow(future, turn, named);
        self.hand_on(more, ready);
        Ok(told)
    }

    // Makes the waker ready that the initialiser of `f` keeps, if it does.
    fn wake_kept(&mut self, f: u64, ready: &mut Ready<u64>)
        requires { keeps self.old ≤ ready.old.registered }
        ensures entry { self.new ≡ stopped self.old f }
        ensures ready { ready.new ≡ waking self.old.running f ready.old }
    {
        if let Some(kept) = self.running {
            if kept.name == f {
                ready.wake(kept.waker);
                self.running = None;
            }
        }
    }

    /// Settles the initialiser of a future, which is named `f`.
    pub fn settle(
        &mut self,
        f: u64,
        future: &mut FutureEntry,
        outcome: Initialiser,
        ready: &mut Ready<u64>,
    )
        requires room { keeps self.old ≤ ready.old.registered }
        requires fits { fits C.is_once (settled outcome future.old.errand) ≡ true }
        ensures { (s : Stands C.is_once self.old f future.old) →
            Stepped C.is_once self.old s.fs s.n f future.old.cell (Some future.new)
            (settle f outcome (future_seen future.old) (cell_seen self.old)) Answer.Done self.new ready.old ready.new }
    {
        self.wake_kept(f, ready);
        future.errand = settled(future.errand, outcome);
    }

    /// Ends a future, which is named `f`.
    pub fn end(&mut self, f: u64, future: FutureEntry, ready: &mut Ready<u64>)
        requires stands { Stands C.is_once self.old f future }
        requires room { keeps self.old ≤ ready.old.registered }
        ensures { (s : Stands C.is_once self.old f future) →
            Stepped C.is_once self.old s.fs s.n f future.cell None (end f (future_seen future) (cell_seen self.old)) Answer.Done self.new ready.old ready.new }
    {
        let more = self.keeps(ready);
        self.core.leave(future.stage);
        self.finish(f, future.errand);
        self.hand_on(more, ready);
    }
}

// What a poll of a wait told.
fn wait_told(over: bool) -> PollReply
    ensures { result ≡ record { answer = cond over Answer.Ready Answer.Pending; over = over } }
{
    PollReply {
        answer: Reply(if over { Word::Ready } else { Word::Pending }),
        over,
    }
}

impl<C: WaitCore> CellEntry<C> {
    ghost use Rattle.mea_once.specs.Entries.{finished, stopped, keeps};

    // One future less, where it is over.
    fn finish_if(&mut self, f: u64, errand: Errand, over: bool)
        requires futures { 1 ≤ self.old.futures }
        requires alone { cond (is_alone errand) 1 0 ≤ self.old.alone }
        ensures { self.new ≡ cond over (finished (stopped self.old f) errand) self.old }
    {
        if over {
            self.finish(f, errand);
        }
    }

    /// Polls a wait, which is named `f`. On an error nothing has changed.
    pub fn poll_wait(
        &mut self,
        f: u64,
        future: &mut FutureEntry,
        waker: u64,
        ready: &mut Ready<u64>,
    ) -> Result<PollReply, NoMemory>
        requires stands { Stands C.TurnCore.is_once self.old f future.old }
        requires wait { is_wait future.old.errand ≡ true }
        requires room { keeps self.old ≤ ready.old.registered }
        ensures { PollsCell C.TurnCore.is_once self.old f future.old waker ready.old result self.new future.new ready.new }
    {
        let Ok(()) = ready.register() else {
            return Err(NoMemory);
        };
        let _room = ready.registered();
        let _waits = self.core.registered();
        let more = self.keeps(ready) + 1;
        let named = NamedWaker { name: f, waker };
        let Ok(over) = self.core.poll_wait(&mut future.wait, named) else {
            ready.unregister(1);
            return Err(NoMemory);
        };
        self.finish_if(f, future.errand, over);
        self.hand_on(more, ready);
        Ok(wait_told(over))
    }
}

impl<C: WholeCore> CellEntry<C> {
    ghost use Rattle.mea_once.specs.Entries.{keeps, RanAlone};

    // The initialiser of a future that uses the cell alone runs, where that is empty.
    fn run_alone(&mut self, errand: Errand, waker: NamedWaker) -> PollReply
        requires free { self.old.cell.permit.free ≡ 1 }
        requires futures { 1 ≤ self.old.futures }
        requires alone { cond (is_alone errand) 1 0 ≤ self.old.alone }
        ensures ran { RanAlone self.old.cell.value (init_of errand) self.old waker errand result self.new }
        ensures sound { IsSoundCell self.new.cell }
        ensures nobody { length self.old.cell.waits.wakers ≡ 0 }
    {
        match self.core.poll_alone(&mut Scripted::new(errand), waker) {
            Poll::Pending => {
                self.running = Some(waker);
                PENDING
            }
            Poll::Ready(Ok(())) => {
                let value = self.core.value().unwrap();
                self.finish(waker.name, errand);
                PollReply {
                    answer: found_full(errand, value),
                    over: true,
                }
            }
            Poll::Ready(Err(error)) => {
                self.finish(waker.name, errand);
                PollReply {
                    answer: Reply(Word::Failure(error)),
                    over: true,
                }
            }
        }
    }

    /// Polls a future that uses the cell alone, which is named `f`. On an error nothing has changed.
    pub fn poll_alone(
        &mut self,
        f: u64,
        future: &mut FutureEntry,
        waker: u64,
        ready: &mut Ready<u64>,
    ) -> Result<PollReply, NoMemory>
        requires stands { Stands C.TurnCore.is_once self.old f future.old }
        requires alone { is_alone future.old.errand ≡ true }
        requires room { keeps self.old ≤ ready.old.registered }
        ensures { PollsCell C.TurnCore.is_once self.old f future.old waker ready.old result self.new future.new ready.new }
    {
        let named = NamedWaker { name: f, waker };
        if self.runs(f) {
            self.running = Some(named);
            return Ok(PENDING);
        }
        let Ok(()) = ready.register() else {
            return Err(NoMemory);
        };
        let _room = ready.registered();
        let more = self.keeps(ready) + 1;
        let told = self.run_alone(future.errand, named);
        self.hand_on(more, ready);
        Ok(told)
    }

    /// Uses the value, for who has the whole cell, and replies.
    pub fn use_whole(&mut self, what: WholeUse) -> Reply
        requires { self.old.cell.permit.free ≡ 1 }
        ensures reply { result ≡ reply_to what self.old.cell.value }
        ensures is { self.new ≡ record self.old { cell = record self.old.cell { value = value_after what self.old.cell.value } } }
        ensures sound { IsSoundCell self.new.cell }
    {
        self.core.use_whole(what)
    }

    /// The value, with which the cell ends.
    pub fn into_value(self) -> Option<u64>
        requires { self.cell.permit.free ≡ 1 }
        ensures { result ≡ self.cell.value }
    {
        self.core.into_value()
    }
}
