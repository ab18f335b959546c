ghost use Rattle.mea_once_core.specs.Table.{entry_at};
ghost use Rattle.mea_once_core.specs.Links.{Shown};
ghost use Rattle.std.specs.Prelude.{◌≡◌, ◌<◌, ◌++◌, ◌∷◌, IfNone, ℕ, ◌+◌, ◌-◌, ◌≤◌, ◌^◌, cond, ◌↔◌, IsTrue, IsSome, IfOk, IfErr, IfSome, OnOk, OnErr, IsOk, MatchResult, length, Some, None, Ok, []};

use crate::cell_stage::CellStage;
use crate::init::Init;
use crate::init_call::InitCall;
use crate::key_call::{KeyCall, KeyStage};
use crate::once_table::OnceTable;
use mea_base::{NoMemory, Outbox, Poll};
use std::alloc::Global;
use std::hash::{BuildHasher, Hash};
use std::marker::Model;

// A table of cells, and the wakers that they have made ready, with room for those of all calls that wait.
pub(crate) struct Keyed<K: Eq + Hash, V, S: BuildHasher, W> {
    table: OnceTable<K, V, S, W>,
    outbox: Outbox<W>,
    waiting: usize,
}

impl<K: Eq + Hash, V, S: BuildHasher, W> Model for Keyed<K, V, S, W> {
    ghost use Rattle.std.specs.Prelude.{◌≡◌, ◌≤◌};
    ghost use Rattle.mea_once_core.specs.Keyed.{Keyed, keyed_code};
    ghost use Rattle.mea_once_core.specs.Waiting.{waiting_in, AreQuiet};

    ghost Value = { Keyed K V W };

    ghost coded = { keyed_code K.code V.code W.code };

    ghost view = { λ k. record { table = k.table; wakes = k.outbox.wakers } };

    ghost invariant = { λ k. record {
      quiet : AreQuiet k.table.slots;
      counted : k.waiting ≡ waiting_in k.table.slots;
      room : k.waiting ≤ k.outbox.spare;
    } };
}

// Written out: a derived one is proved anew in each crate that hands a value of this type to a generic function.
impl<K: Eq + Hash + Drop, V: Drop, S: BuildHasher + Drop, W: Drop> Drop for Keyed<K, V, S, W> {
    fn drop(self) {
        let Keyed {
            table: _,
            outbox: _,
            waiting: _,
        } = self;
    }
}

impl<K: Eq + Hash + Drop, V: Clone, S: BuildHasher + Drop, W: Drop> Keyed<K, V, S, W> {
    ghost use Rattle.mea_once_core.specs.Cell.{Cell, Finds, PollsInit, queues_more};
    ghost use Rattle.mea_once_core.specs.Permit.{MayPoll, MayEnd};
    ghost use Rattle.mea_once_core.specs.Inserts.{IsIdle, last_value};
    ghost use Rattle.mea_once_core.specs.declared.cell_stage.CellStage.TheVariants as stages;
    ghost use Rattle.mea_once_core.specs.Waiting.{waiting_in};
    ghost use Rattle.mea_once_core.specs.Table.{number_of, HasCaller, HasRoom, Joins, Makes, fresh_entry};
    ghost use Rattle.mea_once_core.specs.Keyed.{value_for, GivesUp, EndsCell, IsSameKeyed, LeavesEntry, Discards, MayPollKey, MayEndKey, EndsAt, HandsOut, AfterCellPoll, StepsCell, PollsCaller, StartsAt, StartsNew, HandsFirst, PollsKey, MayRun, TakesMemory};

    // A table with no entry. It takes no memory.
    pub(crate) fn with_hasher(alloc: Global, hasher: S) -> Self
        ensures entries { (n : ℕ) → entry_at result.table n ≡ None }
        ensures numbers { (key : K) → number_of K.eq result.table key ≡ None }
        ensures wakes { result.wakes ≡ [] }
    {
        Keyed {
            table: OnceTable::with_hasher(alloc, hasher),
            outbox: Outbox::new(alloc),
            waiting: 0,
        }
    }

    // A table with no entry, and with room for so many.
    pub(crate) fn with_capacity_and_hasher(
        alloc: Global,
        capacity: usize,
        hasher: S,
    ) -> Result<Self, NoMemory>
        ensures entries { IfOk result (λ k. (n : ℕ) → entry_at k.table n ≡ None) }
        ensures numbers { IfOk result (λ k. (key : K) → number_of K.eq k.table key ≡ None) }
        ensures wakes { IfOk result (λ k. k.wakes ≡ []) }
    {
        let table = OnceTable::with_capacity_and_hasher(alloc, capacity, hasher)?;
        Ok(Keyed {
            table,
            outbox: Outbox::new(alloc),
            waiting: 0,
        })
    }

    // A table of these pairs, in which the last pair of a key stands.
    pub(crate) fn from_pairs(alloc: Global, pairs: Vec<(K, V)>, hasher: S) -> Result<Self, NoMemory>
        ensures entries { IfOk result (λ k. (n : ℕ) (e : Shown V W) → entry_at k.table n ≡ Some e → IsIdle e) }
        ensures values { IfOk result (λ k. (key : K) → value_for K.eq k key ≡ last_value K.eq pairs.items key) }
        ensures wakes { IfOk result (λ k. k.wakes ≡ []) }
    {
        let table = OnceTable::from_pairs(alloc, pairs, hasher)?;
        Ok(Keyed {
            table,
            outbox: Outbox::new(alloc),
            waiting: 0,
        })
    }

    // Polls a call. Where `once` its initialiser's value takes the entry out of the table.
    pub(crate) fn poll<E: Drop, I: Init<V, E, W>>(
        &mut self,
        call: &mut KeyCall<K, I>,
        waker: W,
        once: bool,
    ) -> Result<Poll<Result<V, E>>, (Option<W>, NoMemory)>
        requires clones { (x y : V) → V.is_clone x y → y ≡ x }
        requires may { MayPollKey K.eq self.old call.old }
        requires init { MayRun I.may_poll call.old }
        ensures again { MayRun I.may_poll call.new }
        ensures pending { IfOk result (λ poll. poll ≡ Poll.Pending → I.may_poll call.new.call.init) }
        ensures polls { PollsKey I.answers K.eq once self.old call.old waker result self.new call.new }
        ensures back { IfErr result (λ failed. IfSome failed.0 (λ _. IsSameKeyed K.eq self.old self.new × (call.new ≡ call.old))) }
        ensures returned { ((value : V) → V.is_infallible value) → IfErr result (λ failed. IsSome failed.0) }
        ensures no_memory { ((value : V) → V.is_infallible value) → OnErr result (TakesMemory K.eq self.old call.old) }
    {
        match call.stage {
            KeyStage::New { .. } => self.begin(call, waker, once),
            KeyStage::Calls { number } => self.go_on(call, number, waker, once),
            KeyStage::Kept { number } => self.hand_out(call, number, waker),
            KeyStage::Done => unreachable!(),
        }
    }

    // Polls a call that is one of this table, and of any other the initialiser alone.
    pub(crate) fn poll_checked<E: Drop, I: Init<V, E, W>>(
        &mut self,
        call: &mut KeyCall<K, I>,
        waker: W,
        once: bool,
    ) -> Result<Poll<Result<V, E>>, (Option<W>, NoMemory)>
        requires clones { (x y : V) → V.is_clone x y → y ≡ x }
        requires init { I.may_poll call.old.call.init }
        ensures again { MayPollKey K.eq self.old call.old → MayRun I.may_poll call.new }
        ensures pending { IfOk result (λ poll. poll ≡ Poll.Pending → I.may_poll call.new.call.init) }
        ensures allowed { MayPollKey K.eq self.old call.old → PollsKey I.answers K.eq once self.old call.old waker result self.new call.new }
        ensures alone { ¬ MayPollKey K.eq self.old call.old → (self.new ≡ self.old) × MatchResult result (λ poll. I.answers call.old.call.init waker poll call.new.call.init) (λ _. ⊥) }
        ensures back { IfErr result (λ failed. IfSome failed.0 (λ _. IsSameKeyed K.eq self.old self.new × (call.new ≡ call.old))) }
        ensures returned { ((value : V) → V.is_infallible value) → IfErr result (λ failed. IsSome failed.0) }
        ensures no_memory { ((value : V) → V.is_infallible value) → OnErr result (TakesMemory K.eq self.old call.old) }
    {
        if self.may_poll(call) {
            return self.poll(call, waker, once);
        }
        Ok(call.poll_alone(waker))
    }

    // The first poll: it finds the key's entry or makes one, and is a caller of it then.
    fn begin<E: Drop, I: Init<V, E, W>>(
        &mut self,
        call: &mut KeyCall<K, I>,
        waker: W,
        once: bool,
    ) -> Result<Poll<Result<V, E>>, (Option<W>, NoMemory)>
        requires clones { (x y : V) → V.is_clone x y → y ≡ x }
        requires may { MayPollKey K.eq self.old call.old }
        requires new { (key : K) × (call.old.stage ≡ KeyStage.New key) }
        requires init { MayRun I.may_poll call.old }
        ensures again { MayRun I.may_poll call.new }
        ensures pending { IfOk result (λ poll. poll ≡ Poll.Pending → I.may_poll call.new.call.init) }
        ensures polls { PollsKey I.answers K.eq once self.old call.old waker result self.new call.new }
        ensures back { IfErr result (λ failed. IfSome failed.0 (λ _. IsSameKeyed K.eq self.old self.new × (call.new ≡ call.old))) }
        ensures returned { ((value : V) → V.is_infallible value) → IfErr result (λ failed. IsSome failed.0) }
        ensures no_memory { ((value : V) → V.is_infallible value) → OnErr result (TakesMemory K.eq self.old call.old) }
    {
        let KeyStage::New { key } = std::mem::replace(&mut call.stage, KeyStage::Done) else {
            unreachable!();
        };
        match self.table.get(&key) {
            Some(number) => self.begin_at(call, key, number, waker, once),
            None => self.begin_new(call, key, waker, once),
        }
    }

    // The first poll at an entry that the table has for the key.
    fn begin_at<E: Drop, I: Init<V, E, W>>(
        &mut self,
        call: &mut KeyCall<K, I>,
        key: K,
        number: usize,
        waker: W,
        once: bool,
    ) -> Result<Poll<Result<V, E>>, (Option<W>, NoMemory)>
        requires clones { (x y : V) → V.is_clone x y → y ≡ x }
        requires there { (e : Shown V W) × (entry_at self.old.table number ≡ Some e) × (e.callers < usize.MAX) }
        requires new { call.old.call.stage ≡ stages.New }
        requires init { I.may_poll call.old.call.init }
        ensures again { MayRun I.may_poll call.new }
        ensures pending { IfOk result (λ poll. poll ≡ Poll.Pending → I.may_poll call.new.call.init) }
        ensures starts { (e : Shown V W) → entry_at self.old.table number ≡ Some e → StartsAt I.answers K.eq once self.old key number e call.old.call waker result self.new call.new.call call.new.stage }
        ensures back { IfErr result (λ failed. IfSome failed.0 (λ _. IsSameKeyed K.eq self.old self.new × (call.new ≡ record call.old { stage = KeyStage.New key }))) }
        ensures returned { ((value : V) → V.is_infallible value) → IfErr result (λ failed. IsSome failed.0) }
        ensures no_memory { ((value : V) → V.is_infallible value) → OnErr result ((e : Shown V W) → entry_at self.old.table number ≡ Some e → queues_more e.cell call.old.call.stage ≡ 1) }
    {
        if self.table.cell(number).is_full() {
            return self.hand_out_first(call, key, number, waker);
        }
        match self.poll_cell(number, &mut call.call, waker) {
            Ok(answer) => {
                self.join(number);
                call.stage = KeyStage::Calls { number };
                self.answer(call, number, answer, once)
            }
            Err((waker, _)) => {
                call.stage = KeyStage::New { key };
                Err((Some(waker), NoMemory))
            }
        }
    }

    // The first poll at an entry whose cell is full: a clone of the value, or want of memory with the key kept.
    fn hand_out_first<E: Drop, I: Init<V, E, W>>(
        &mut self,
        call: &mut KeyCall<K, I>,
        key: K,
        number: usize,
        waker: W,
    ) -> Result<Poll<Result<V, E>>, (Option<W>, NoMemory)>
        requires clones { (x y : V) → V.is_clone x y → y ≡ x }
        requires there { IsSome (entry_at self.old.table number) }
        requires init { I.may_poll call.old.call.init }
        ensures again { MayRun I.may_poll call.new }
        ensures pending { IfOk result (λ poll. poll ≡ Poll.Pending → I.may_poll call.new.call.init) }
        ensures hands { IfSome (entry_at self.old.table number) (λ e. HandsFirst key call.old.call waker e result call.new.call call.new.stage) }
        ensures same { self.new ≡ self.old }
        ensures back { IfErr result (λ failed. (failed.0 ≡ Some waker) × (call.new ≡ record call.old { stage = KeyStage.New key })) }
        ensures succeeds { ((value : V) → V.is_infallible value) → IfSome (entry_at self.old.table number) (λ e. IsSome e.cell.value → IsOk result) }
    {
        let Some(value) = self.value_of(number) else {
            call.stage = KeyStage::New { key };
            return Err((Some(waker), NoMemory));
        };
        call.stage = KeyStage::Done;
        Ok(Poll::Ready(Ok(value)))
    }

    // The first poll of a key that the table has not.
    fn begin_new<E: Drop, I: Init<V, E, W>>(
        &mut self,
        call: &mut KeyCall<K, I>,
        key: K,
        waker: W,
        once: bool,
    ) -> Result<Poll<Result<V, E>>, (Option<W>, NoMemory)>
        requires clones { (x y : V) → V.is_clone x y → y ≡ x }
        requires absent { number_of K.eq self.old.table key ≡ None }
        requires new { call.old.call.stage ≡ stages.New }
        requires init { I.may_poll call.old.call.init }
        ensures again { MayRun I.may_poll call.new }
        ensures pending { IfOk result (λ poll. poll ≡ Poll.Pending → I.may_poll call.new.call.init) }
        ensures starts { StartsNew I.answers K.eq once self.old key call.old.call waker result self.new call.new.call call.new.stage }
        ensures back { IfErr result (λ failed. IfSome failed.0 (λ _. IsSameKeyed K.eq self.old self.new × (call.new ≡ record call.old { stage = KeyStage.New key }))) }
        ensures returned { ((value : V) → V.is_infallible value) → IfErr result (λ failed. IsSome failed.0) }
    {
        match self.make(key) {
            Ok(number) => {
                call.stage = KeyStage::Calls { number };
                self.go_on(call, number, waker, once)
            }
            Err((key, _)) => {
                call.stage = KeyStage::New { key };
                Err((Some(waker), NoMemory))
            }
        }
    }

    // A new entry for a key that the table has not, with one caller.
    fn make(&mut self, key: K) -> Result<usize, (K, NoMemory)>
        requires { number_of K.eq self.old.table key ≡ None }
        ensures made { IfOk result (λ n. Makes K.eq self.old.table self.new.table key n fresh_entry) }
        ensures wakes { self.new.wakes ≡ self.old.wakes }
        ensures err { IfErr result (λ e. (e.0 ≡ key) × IsSameKeyed K.eq self.old self.new) }
    {
        self.table.get_or_insert(key)
    }

    // A further poll of a caller.
    fn go_on<E: Drop, I: Init<V, E, W>>(
        &mut self,
        call: &mut KeyCall<K, I>,
        number: usize,
        waker: W,
        once: bool,
    ) -> Result<Poll<Result<V, E>>, (Option<W>, NoMemory)>
        requires clones { (x y : V) → V.is_clone x y → y ≡ x }
        requires may { (e : Shown V W) × (entry_at self.old.table number ≡ Some e) × (1 ≤ e.callers) × MayPoll e.cell.permit call.old.call.stage }
        requires stage { call.old.stage ≡ KeyStage.Calls number }
        requires init { I.may_poll call.old.call.init }
        ensures again { MayRun I.may_poll call.new }
        ensures pending { IfOk result (λ poll. poll ≡ Poll.Pending → I.may_poll call.new.call.init) }
        ensures polls { (e : Shown V W) → entry_at self.old.table number ≡ Some e → PollsCaller I.answers K.eq once self.old number e call.old.call waker result self.new call.new.call call.new.stage }
        ensures back { IfErr result (λ failed. IfSome failed.0 (λ _. IsSameKeyed K.eq self.old self.new × (call.new ≡ call.old))) }
        ensures returned { ((value : V) → V.is_infallible value) → IfErr result (λ failed. IsSome failed.0) }
        ensures no_memory { ((value : V) → V.is_infallible value) → OnErr result ((e : Shown V W) → entry_at self.old.table number ≡ Some e → queues_more e.cell call.old.call.stage ≡ 1) }
    {
        if self.table.cell(number).finds(call.call.stage) {
            let Some(value) = self.value_of(number) else {
                return Err((Some(waker), NoMemory));
            };
            let _ = self.poll_cell(number, &mut call.call, waker);
            self.leave(number);
            call.stage = KeyStage::Done;
            return Ok(Poll::Ready(Ok(value)));
        }
        match self.poll_cell(number, &mut call.call, waker) {
            Ok(answer) => self.answer(call, number, answer, once),
            Err((waker, _)) => Err((Some(waker), NoMemory)),
        }
    }

    // What a caller is told whose initialiser answered, or who waits.
    fn answer<E: Drop, I: Init<V, E, W>>(
        &mut self,
        call: &mut KeyCall<K, I>,
        number: usize,
        answer: Poll<Result<(), E>>,
        once: bool,
    ) -> Result<Poll<Result<V, E>>, (Option<W>, NoMemory)>
        requires clones { (x y : V) → V.is_clone x y → y ≡ x }
        requires calls { (e : Shown V W) × (entry_at self.old.table number ≡ Some e) × (1 ≤ e.callers) }
        requires stage { call.old.stage ≡ KeyStage.Calls number }
        requires init { answer ≡ Poll.Pending → I.may_poll call.old.call.init }
        requires filled { answer ≡ Poll.Ready (Ok tt) → IfSome (entry_at self.old.table number) (λ e. IsSome e.cell.value) }
        ensures again { MayRun I.may_poll call.new }
        ensures pending { IfOk result (λ poll. poll ≡ Poll.Pending → I.may_poll call.new.call.init) }
        ensures told { (e : Shown V W) → entry_at self.old.table number ≡ Some e → AfterCellPoll K.eq once (Ok answer) self.old number e result self.new call.new.stage }
        ensures call { call.new.call ≡ call.old.call }
        ensures kept { IfErr result (λ failed. failed.0 ≡ None) }
        ensures succeeds { ((value : V) → V.is_infallible value) → IsOk result }
    {
        match answer {
            Poll::Pending => Ok(Poll::Pending),
            Poll::Ready(Err(e)) => {
                self.leave(number);
                call.stage = KeyStage::Done;
                Ok(Poll::Ready(Err(e)))
            }
            Poll::Ready(Ok(())) => {
                self.give_up(once, number);
                let Some(value) = self.value_of(number) else {
                    call.stage = KeyStage::Kept { number };
                    return Err((None, NoMemory));
                };
                self.leave(number);
                call.stage = KeyStage::Done;
                Ok(Poll::Ready(Ok(value)))
            }
        }
    }

    // A further poll of a caller whose value was kept.
    fn hand_out<E: Drop, I: Init<V, E, W>>(
        &mut self,
        call: &mut KeyCall<K, I>,
        number: usize,
        waker: W,
    ) -> Result<Poll<Result<V, E>>, (Option<W>, NoMemory)>
        requires clones { (x y : V) → V.is_clone x y → y ≡ x }
        requires kept { (e : Shown V W) × (entry_at self.old.table number ≡ Some e) × (1 ≤ e.callers) × IsSome e.cell.value }
        requires stage { call.old.stage ≡ KeyStage.Kept number }
        ensures again { MayRun I.may_poll call.new }
        ensures pending { IfOk result (λ poll. poll ≡ Poll.Pending → I.may_poll call.new.call.init) }
        ensures handed { (e : Shown V W) → entry_at self.old.table number ≡ Some e → HandsOut K.eq (Some waker) (KeyStage.Kept number) self.old number e result self.new call.new.stage }
        ensures call { call.new.call ≡ call.old.call }
        ensures back { IfErr result (λ failed. (failed.0 ≡ Some waker) × (self.new ≡ self.old) × (call.new ≡ call.old)) }
        ensures succeeds { ((value : V) → V.is_infallible value) → IsOk result }
    {
        let Some(value) = self.value_of(number) else {
            return Err((Some(waker), NoMemory));
        };
        self.leave(number);
        call.stage = KeyStage::Done;
        Ok(Poll::Ready(Ok(value)))
    }

    // A clone of the value of an entry's cell; None where it has none, or where there is no memory.
    fn value_of(&self, number: usize) -> Option<V>
        requires clones { (x y : V) → V.is_clone x y → y ≡ x }
        requires there { IsSome (entry_at self.now.table number) }
        ensures is { IfSome result (λ v. IfSome (entry_at self.now.table number) (λ e. e.cell.value ≡ Some v)) }
        ensures succeeds { ((value : V) → V.is_infallible value) → IfSome (entry_at self.now.table number) (λ e. IsSome e.cell.value → IsSome result) }
    {
        match self.table.cell(number).get()?.clone() {
            Ok(value) => Some(value),
            Err(_) => None,
        }
    }

    // Polls a call of the entry's cell, and moves the wakers that it makes ready.
    fn poll_cell<E: Drop, I: Init<V, E, W>>(
        &mut self,
        number: usize,
        call: &mut InitCall<I>,
        waker: W,
    ) -> Result<Poll<Result<(), E>>, (W, NoMemory)>
        requires may { (e : Shown V W) × (entry_at self.old.table number ≡ Some e) × MayPoll e.cell.permit call.old.stage }
        requires init { I.may_poll call.old.init }
        ensures again { IfOk result (λ poll. poll ≡ Poll.Pending → I.may_poll call.new.init) }
        ensures back { OnErr result (call.new ≡ call.old) }
        ensures steps { (e : Shown V W) → entry_at self.old.table number ≡ Some e → (cell : Cell V W) × StepsCell I.answers K.eq self.old number e call.old waker result cell self.new call.new }
        ensures same { OnErr result (IsSameKeyed K.eq self.old self.new) }
        ensures no_memory { (e : Shown V W) → entry_at self.old.table number ≡ Some e → OnErr result (queues_more e.cell call.old.stage ≡ 1) }
        ensures fills { IfOk result (λ poll. poll ≡ Poll.Ready (Ok tt) → IfSome (entry_at self.new.table number) (λ e. IsSome e.cell.value)) }
    {
        let more = self.table.cell(number).queues_more(call.stage);
        if reserve(&mut self.outbox, self.waiting, more).is_err() {
            return Err((waker, NoMemory));
        }
        let before = self.table.cell(number).waiting();
        let answer = self.table.poll_init(number, call, waker);
        self.table.move_wakes(number, &mut self.outbox);
        self.waiting = self.waiting - before + self.table.cell(number).waiting();
        answer
    }

    // Ends a call of the entry's cell, and moves the wakers that this makes ready. It takes no memory.
    fn end_cell<I: Drop>(&mut self, number: usize, call: InitCall<I>)
        requires may { (e : Shown V W) × (entry_at self.old.table number ≡ Some e) × MayEnd e.cell.permit call.stage }
        ensures ends { (e : Shown V W) → entry_at self.old.table number ≡ Some e → EndsCell K.eq self.old number e call.stage self.new }
    {
        let before = self.table.cell(number).waiting();
        self.table.end_init(number, call);
        self.table.move_wakes(number, &mut self.outbox);
        self.waiting = self.waiting - before + self.table.cell(number).waiting();
    }

    // A caller leaves its entry; the last of an empty one takes it out of the table. It takes no memory.
    fn leave(&mut self, number: usize)
        requires { (e : Shown V W) × (entry_at self.old.table number ≡ Some e) × (1 ≤ e.callers) }
        ensures { (e : Shown V W) → entry_at self.old.table number ≡ Some e → LeavesEntry K.eq self.old number e self.new }
    {
        self.table.retire(number);
        let waiting = self.table.cell(number).waiting();
        self.table.leave(number);
        self.waiting = waiting_after(self.waiting, waiting, self.table.is_in_use(number));
    }

    // Where a value is for one round alone, the table gives the entry up, which stays for its callers. It takes
    // no memory.
    fn give_up(&mut self, once: bool, number: usize)
        requires { (e : Shown V W) × (entry_at self.old.table number ≡ Some e) × (1 ≤ e.callers) }
        ensures { (e : Shown V W) → entry_at self.old.table number ≡ Some e → GivesUp K.eq once self.old number e self.new }
    {
        if once {
            self.table.remove_entry(number);
        }
    }

    // A further caller of an entry. It takes no memory.
    fn join(&mut self, number: usize)
        requires { (e : Shown V W) × (entry_at self.old.table number ≡ Some e) × (e.callers < usize.MAX) }
        ensures joined { Joins K.eq self.old.table self.new.table number }
        ensures wakes { self.new.wakes ≡ self.old.wakes }
    {
        self.table.join(number);
    }

    // Ends a call at any stage. It takes no memory.
    pub(crate) fn end<I: Drop>(&mut self, call: KeyCall<K, I>)
        requires { MayEndKey K.eq self.old call }
        ensures { EndsAt K.eq call.stage self.old call.call.stage self.new }
    {
        match call.stage {
            KeyStage::New { .. } | KeyStage::Done => {}
            KeyStage::Calls { number } => {
                self.end_cell(number, call.call);
                self.leave(number);
            }
            KeyStage::Kept { number } => self.leave(number),
        }
    }

    // A clone of the key's value, if it has one.
    pub(crate) fn get(&self, key: &K) -> Result<Option<V>, NoMemory>
        requires clones { (x y : V) → V.is_clone x y → y ≡ x }
        ensures is { IfOk result (λ value. value ≡ value_for K.eq self.now key.now) }
        ensures no_memory { OnErr result (IsSome (value_for K.eq self.now key.now)) }
        ensures succeeds { ((value : V) → V.is_infallible value) → IsOk result }
    {
        let Some(number) = self.table.get(key) else {
            return Ok(None);
        };
        match self.table.cell(number).get() {
            None => Ok(None),
            Some(value) => Ok(Some(value.clone()?)),
        }
    }

    // The key's entry leaves the table, and stays for its callers. It takes no memory.
    pub(crate) fn discard(&mut self, key: &K)
        ensures { Discards K.eq self.old key.now self.new }
    {
        let Some(number) = self.table.get(key) else {
            return;
        };
        let waiting = self.table.cell(number).waiting();
        let _ = self.table.remove(key);
        self.waiting = waiting_after(self.waiting, waiting, self.table.is_in_use(number));
    }

    // Whether the call is one of this table that was not ready yet, and where it is new, whether its key's entry
    // may have a caller more. It takes no memory.
    pub(crate) fn may_poll<I>(&self, call: &KeyCall<K, I>) -> bool
        ensures { IsTrue result ↔ MayPollKey K.eq self.now call.now }
    {
        match &call.stage {
            KeyStage::New { key } => matches!(call.call.stage, CellStage::New)
                && self.has_room(key),
            KeyStage::Calls { number } => self.may_poll_at(*number, call.call.stage),
            KeyStage::Kept { number } => self.is_kept_at(*number),
            KeyStage::Done => false,
        }
    }

    // Whether the call is one of this table. It takes no memory.
    pub(crate) fn may_end<I>(&self, call: &KeyCall<K, I>) -> bool
        ensures { IsTrue result ↔ MayEndKey K.eq self.now call.now }
    {
        match &call.stage {
            KeyStage::New { .. } | KeyStage::Done => true,
            KeyStage::Calls { number } => self.may_end_at(*number, call.call.stage),
            KeyStage::Kept { number } => self.has_caller(*number),
        }
    }

    // Whether the key's entry, if the table has one, may have a caller more.
    fn has_room(&self, key: &K) -> bool
        ensures { IsTrue result ↔ HasRoom K.eq self.now.table key.now }
    {
        match self.table.get(key) {
            Some(number) => self.table.callers(number) < usize::MAX,
            None => true,
        }
    }

    // Whether the entry has a caller.
    fn has_caller(&self, number: usize) -> bool
        ensures { IsTrue result ↔ HasCaller self.now.table number }
    {
        if !self.table.is_in_use(number) {
            return false;
        }
        self.table.callers(number) >= 1
    }

    // Whether the entry has a caller, and a call of its cell at this stage may be polled.
    fn may_poll_at(&self, number: usize, stage: CellStage) -> bool
        ensures { IsTrue result ↔ ((e : Shown V W) × (entry_at self.now.table number ≡ Some e) × (1 ≤ e.callers) × MayPoll e.cell.permit stage) }
    {
        if !self.has_caller(number) {
            return false;
        }
        self.table.cell(number).may_poll(stage)
    }

    // Whether the entry has a caller, and a call of its cell at this stage may be ended.
    fn may_end_at(&self, number: usize, stage: CellStage) -> bool
        ensures { IsTrue result ↔ ((e : Shown V W) × (entry_at self.now.table number ≡ Some e) × (1 ≤ e.callers) × MayEnd e.cell.permit stage) }
    {
        if !self.has_caller(number) {
            return false;
        }
        self.table.cell(number).may_end(stage)
    }

    // Whether the entry has a caller, and its cell a value.
    fn is_kept_at(&self, number: usize) -> bool
        ensures { IsTrue result ↔ ((e : Shown V W) × (entry_at self.now.table number ≡ Some e) × (1 ≤ e.callers) × IsSome e.cell.value) }
    {
        if !self.has_caller(number) {
            return false;
        }
        self.table.cell(number).is_full()
    }

    // How many calls wait for their turn, in all entries together. It takes no memory.
    pub(crate) fn waiting(&self) -> usize
        ensures { result ≡ waiting_in self.now.table.slots }
    {
        self.waiting
    }

    // How many wakers are ready. It takes no memory.
    pub(crate) fn wakes_ready(&self) -> usize
        ensures is { result ≡ length self.now.wakes }
        ensures bound { result < 2 ^ 63 }
    {
        self.outbox.len()
    }

    // Takes the first waker that is ready. It takes no memory.
    pub(crate) fn next_wake(&mut self) -> Option<W>
        ensures some { IfSome result (λ w. self.old ≡ record self.new { wakes = w ∷ self.new.wakes }) }
        ensures none { IfNone result ((self.old.wakes ≡ []) × (self.new ≡ self.old)) }
    {
        self.outbox.pop()
    }
}

// How many wait of all, of whom so many waited at an entry that may be in use no more.
fn waiting_after(all: usize, at_entry: usize, in_use: bool) -> usize
    requires { at_entry ≤ all }
    ensures { result ≡ cond in_use all (all - at_entry) }
{
    if in_use { all } else { all - at_entry }
}

// Makes room for the wakers of those who wait, and of `more`; it can fail only where that is not 0.
fn reserve<W>(outbox: &mut Outbox<W>, waiting: usize, more: usize) -> Result<(), NoMemory>
    requires { waiting ≤ outbox.old.spare }
    ensures room { OnOk result (waiting + more ≤ outbox.new.spare) }
    ensures fits { OnOk result (waiting + more ≤ usize.MAX) }
    ensures same { outbox.new.wakers ≡ outbox.old.wakers }
    ensures grows { outbox.old.spare ≤ outbox.new.spare }
    ensures succeeds { more ≡ 0 → IsOk result }
{
    if more == 0 {
        return Ok(());
    }
    let Some(all) = waiting.checked_add(more) else {
        return Err(NoMemory);
    };
    outbox.reserve(all)
}
