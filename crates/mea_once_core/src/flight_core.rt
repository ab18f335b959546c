ghost use Rattle.std.specs.Prelude.{◌≡◌, ◌<◌, ◌^◌, ◌↔◌, ℕ, [], ◌∷◌, length, true, false, None, IsTrue, IsSome, IfOk, IfErr, OnErr, IfSome, IfNone, OnOk, MatchResult};

use crate::init::Init;
use crate::key_call::KeyCall;
use crate::keyed::Keyed;
use mea_base::{NoMemory, Poll};
use std::alloc::Global;
use std::hash::{BuildHasher, Hash};
use std::marker::Model;

/// A group of calls in which those of one key share the value that the first of them computes; the next
/// call of that key computes anew.
///
/// It ports the state of `mea::singleflight::Group`.
pub struct FlightCore<K: Eq + Hash, V, S: BuildHasher, W> {
    keyed: Keyed<K, V, S, W>,
}

impl<K: Eq + Hash, V, S: BuildHasher, W> Model for FlightCore<K, V, S, W> {
    ghost use Rattle.mea_once_core.specs.Keyed.{Keyed, keyed_code};

    ghost Value = { Keyed K V W };

    ghost coded = { keyed_code K.code V.code W.code };

    ghost view = { λ m. m.keyed };
}

// Written out: a derived one is proved anew in each crate that hands a value of this type to a generic function.
impl<K: Eq + Hash + Drop, V: Drop, S: BuildHasher + Drop, W: Drop> Drop for FlightCore<K, V, S, W> {
    fn drop(self) {
        let FlightCore { keyed: _ } = self;
    }
}

impl<K: Eq + Hash + Drop, V: Clone, S: BuildHasher + Drop, W: Drop> FlightCore<K, V, S, W> {
    ghost use Rattle.mea_once_core.specs.Keyed.{TakesMemory, IsSameKeyed, Discards, MayPollKey, MayEndKey, EndsAt, PollsKey, MayRun, value_for};
    ghost use Rattle.mea_once_core.specs.Table.{entry_at, number_of};
    ghost use Rattle.mea_once_core.specs.Waiting.{waiting_in};

    /// A group with no call. It takes no memory.
    pub fn with_hasher(alloc: Global, hasher: S) -> Self
        ensures entries { (n : ℕ) → entry_at result.table n ≡ None }
        ensures numbers { (key : K) → number_of K.eq result.table key ≡ None }
        ensures wakes { result.wakes ≡ [] }
    {
        FlightCore {
            keyed: Keyed::with_hasher(alloc, hasher),
        }
    }

    /// Polls a call: ready with the value that this call or an earlier one of its key has computed, or with
    /// the error of its own initialiser.
    pub fn poll_work<E: Drop, I: Init<V, E, W>>(
        &mut self,
        call: &mut KeyCall<K, I>,
        waker: W,
    ) -> Result<Poll<Result<V, E>>, (Option<W>, NoMemory)>
        requires clones { (x y : V) → V.is_clone x y → y ≡ x }
        requires may { MayPollKey K.eq self.old call.old }
        requires init { MayRun I.may_poll call.old }
        ensures again { MayRun I.may_poll call.new }
        ensures pending { IfOk result (λ poll. poll ≡ Poll.Pending → I.may_poll call.new.call.init) }
        ensures polls { PollsKey I.answers K.eq true self.old call.old waker result self.new call.new }
        ensures back { IfErr result (λ failed. IfSome failed.0 (λ _. IsSameKeyed K.eq self.old self.new × (call.new ≡ call.old))) }
        ensures returned { ((value : V) → V.is_infallible value) → IfErr result (λ failed. IsSome failed.0) }
        ensures no_memory { ((value : V) → V.is_infallible value) → OnErr result (TakesMemory K.eq self.old call.old) }
    {
        self.keyed.poll(call, waker, true)
    }

    /// Ends a call at any stage. It takes no memory.
    pub fn end_work<I: Drop>(&mut self, call: KeyCall<K, I>)
        requires { MayEndKey K.eq self.old call }
        ensures { EndsAt K.eq call.stage self.old call.call.stage self.new }
    {
        self.keyed.end(call);
    }

    /// Later calls of the key compute anew; those that run are not changed. It takes no memory.
    pub fn forget(&mut self, key: &K)
        ensures { Discards K.eq self.old key.now self.new }
    {
        self.keyed.discard(key);
    }

    // ---- the forms that ask for nothing

    /// Whether the call is one of this core that was not ready yet, and where it is new, whether its key's entry
    /// may have a caller more, which `poll_work` asks for. It takes no memory.
    pub fn poll_work_allowed<I>(&self, call: &KeyCall<K, I>) -> bool
        ensures { IsTrue result ↔ MayPollKey K.eq self.now call.now }
    {
        self.keyed.may_poll(call)
    }

    /// `poll_work`, which polls the initialiser alone where the call is not one of this core or was ready.
    pub fn poll_work_checked<E: Drop, I: Init<V, E, W>>(
        &mut self,
        call: &mut KeyCall<K, I>,
        waker: W,
    ) -> Result<Poll<Result<V, E>>, (Option<W>, NoMemory)>
        requires clones { (x y : V) → V.is_clone x y → y ≡ x }
        requires init { I.may_poll call.old.call.init }
        ensures again { MayPollKey K.eq self.old call.old → MayRun I.may_poll call.new }
        ensures pending { IfOk result (λ poll. poll ≡ Poll.Pending → I.may_poll call.new.call.init) }
        ensures allowed { MayPollKey K.eq self.old call.old → PollsKey I.answers K.eq true self.old call.old waker result self.new call.new }
        ensures alone { ¬ MayPollKey K.eq self.old call.old → (self.new ≡ self.old) × MatchResult result (λ poll. I.answers call.old.call.init waker poll call.new.call.init) (λ _. ⊥) }
        ensures back { IfErr result (λ failed. IfSome failed.0 (λ _. IsSameKeyed K.eq self.old self.new × (call.new ≡ call.old))) }
        ensures returned { ((value : V) → V.is_infallible value) → IfErr result (λ failed. IsSome failed.0) }
        ensures no_memory { ((value : V) → V.is_infallible value) → OnErr result (TakesMemory K.eq self.old call.old) }
    {
        self.keyed.poll_checked(call, waker, true)
    }

    /// Whether the call is one of this core, which `end_work` asks for. It takes no memory.
    pub fn end_work_allowed<I>(&self, call: &KeyCall<K, I>) -> bool
        ensures { IsTrue result ↔ MayEndKey K.eq self.now call.now }
    {
        self.keyed.may_end(call)
    }

    /// `end_work`, which does nothing more where the call is not one of this core. It takes no memory.
    pub fn end_work_checked<I: Drop>(&mut self, call: KeyCall<K, I>)
        ensures allowed { MayEndKey K.eq self.old call → EndsAt K.eq call.stage self.old call.call.stage self.new }
        ensures refused { ¬ MayEndKey K.eq self.old call → self.new ≡ self.old }
    {
        if self.end_work_allowed(&call) {
            self.end_work(call);
        }
    }

    /// How many calls wait for their turn, in all entries together. It takes no memory.
    pub fn waiting(&self) -> usize
        ensures { result ≡ waiting_in self.now.table.slots }
    {
        self.keyed.waiting()
    }

    /// How many wakers are ready. It takes no memory.
    pub fn wakes_ready(&self) -> usize
        ensures is { result ≡ length self.now.wakes }
        ensures bound { result < 2 ^ 63 }
    {
        self.keyed.wakes_ready()
    }

    /// Takes the first waker that is ready. It takes no memory.
    pub fn next_wake(&mut self) -> Option<W>
        ensures some { IfSome result (λ w. self.old ≡ record self.new { wakes = w ∷ self.new.wakes }) }
        ensures none { IfNone result ((self.old.wakes ≡ []) × (self.new ≡ self.old)) }
    {
        self.keyed.next_wake()
    }
}
