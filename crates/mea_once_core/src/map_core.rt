ghost use Rattle.std.specs.Prelude.{◌≡◌, ◌<◌, ◌^◌, ◌↔◌, ℕ, [], ◌∷◌, length, true, false, Some, None, IsTrue, IsSome, IsOk, IfOk, IfErr, OnErr, IfSome, IfNone, OnOk, MatchResult};

use crate::init::Init;
use crate::key_call::KeyCall;
use crate::keyed::Keyed;
use mea_base::{NoMemory, Poll};
use std::alloc::Global;
use std::hash::{BuildHasher, Hash};
use std::marker::Model;

/// A map whose values are computed once for each key, and stay.
///
/// It ports the state of `mea::once::OnceMap`.
pub struct MapCore<K: Eq + Hash, V, S: BuildHasher, W> {
    keyed: Keyed<K, V, S, W>,
}

impl<K: Eq + Hash, V, S: BuildHasher, W> Model for MapCore<K, V, S, W> {
    ghost use Rattle.mea_once_core.specs.Keyed.{Keyed, keyed_code};

    ghost Value = { Keyed K V W };

    ghost coded = { keyed_code K.code V.code W.code };

    ghost view = { λ m. m.keyed };
}

// Written out: a derived one is proved anew in each crate that hands a value of this type to a generic function.
impl<K: Eq + Hash + Drop, V: Drop, S: BuildHasher + Drop, W: Drop> Drop for MapCore<K, V, S, W> {
    fn drop(self) {
        let MapCore { keyed: _ } = self;
    }
}

impl<K: Eq + Hash + Drop, V: Clone, S: BuildHasher + Drop, W: Drop> MapCore<K, V, S, W> {
    ghost use Rattle.mea_once_core.specs.Keyed.{TakesMemory, IsSameKeyed, Discards, MayPollKey, MayEndKey, EndsAt, PollsKey, MayRun, value_for};
    ghost use Rattle.mea_once_core.specs.Table.{entry_at, number_of};
    ghost use Rattle.mea_once_core.specs.Waiting.{waiting_in};
    ghost use Rattle.mea_once_core.specs.Links.{Shown};
    ghost use Rattle.mea_once_core.specs.Inserts.{IsIdle, last_value};

    /// A map with no entry. It takes no memory.
    pub fn with_hasher(alloc: Global, hasher: S) -> Self
        ensures entries { (n : ℕ) → entry_at result.table n ≡ None }
        ensures numbers { (key : K) → number_of K.eq result.table key ≡ None }
        ensures wakes { result.wakes ≡ [] }
    {
        MapCore {
            keyed: Keyed::with_hasher(alloc, hasher),
        }
    }

    /// A map with no entry, and with room for so many.
    pub fn with_capacity_and_hasher(
        alloc: Global,
        capacity: usize,
        hasher: S,
    ) -> Result<Self, NoMemory>
        ensures entries { IfOk result (λ m. (n : ℕ) → entry_at m.table n ≡ None) }
        ensures numbers { IfOk result (λ m. (key : K) → number_of K.eq m.table key ≡ None) }
        ensures wakes { IfOk result (λ m. m.wakes ≡ []) }
    {
        let keyed = Keyed::with_capacity_and_hasher(alloc, capacity, hasher)?;
        Ok(MapCore { keyed })
    }

    /// A map of these pairs, in which the last pair of a key stands.
    pub fn from_pairs(alloc: Global, pairs: Vec<(K, V)>, hasher: S) -> Result<Self, NoMemory>
        ensures entries { IfOk result (λ m. (n : ℕ) (e : Shown V W) → entry_at m.table n ≡ Some e → IsIdle e) }
        ensures values { IfOk result (λ m. (key : K) → value_for K.eq m key ≡ last_value K.eq pairs.items key) }
        ensures wakes { IfOk result (λ m. m.wakes ≡ []) }
    {
        let keyed = Keyed::from_pairs(alloc, pairs, hasher)?;
        Ok(MapCore { keyed })
    }

    /// Polls a call: ready with the key's value, be it computed by this call or by another, or with the error
    /// of its own initialiser.
    pub fn poll_compute<E: Drop, I: Init<V, E, W>>(
        &mut self,
        call: &mut KeyCall<K, I>,
        waker: W,
    ) -> Result<Poll<Result<V, E>>, (Option<W>, NoMemory)>
        requires clones { (x y : V) → V.is_clone x y → y ≡ x }
        requires may { MayPollKey K.eq self.old call.old }
        requires init { MayRun I.may_poll call.old }
        ensures again { MayRun I.may_poll call.new }
        ensures pending { IfOk result (λ poll. poll ≡ Poll.Pending → I.may_poll call.new.call.init) }
        ensures polls { PollsKey I.answers K.eq false self.old call.old waker result self.new call.new }
        ensures back { IfErr result (λ failed. IfSome failed.0 (λ _. IsSameKeyed K.eq self.old self.new × (call.new ≡ call.old))) }
        ensures returned { ((value : V) → V.is_infallible value) → IfErr result (λ failed. IsSome failed.0) }
        ensures no_memory { ((value : V) → V.is_infallible value) → OnErr result (TakesMemory K.eq self.old call.old) }
    {
        self.keyed.poll(call, waker, false)
    }

    /// Ends a call at any stage. It takes no memory.
    pub fn end_compute<I: Drop>(&mut self, call: KeyCall<K, I>)
        requires { MayEndKey K.eq self.old call }
        ensures { EndsAt K.eq call.stage self.old call.call.stage self.new }
    {
        self.keyed.end(call);
    }

    /// A clone of the key's value, if it has one.
    pub fn get(&self, key: &K) -> Result<Option<V>, NoMemory>
        requires clones { (x y : V) → V.is_clone x y → y ≡ x }
        ensures is { IfOk result (λ value. value ≡ value_for K.eq self.now key.now) }
        ensures no_memory { OnErr result (IsSome (value_for K.eq self.now key.now)) }
        ensures succeeds { ((value : V) → V.is_infallible value) → IsOk result }
    {
        self.keyed.get(key)
    }

    /// The key's entry leaves the map, and stays for its callers. It takes no memory.
    pub fn discard(&mut self, key: &K)
        ensures { Discards K.eq self.old key.now self.new }
    {
        self.keyed.discard(key);
    }

    /// The key's entry leaves the map, and stays for its callers; a clone of its value is handed out. With no
    /// memory nothing has changed.
    pub fn remove(&mut self, key: &K) -> Result<Option<V>, NoMemory>
        requires clones { (x y : V) → V.is_clone x y → y ≡ x }
        ensures value { IfOk result (λ value. value ≡ value_for K.eq self.old key.now) }
        ensures ok { OnOk result (Discards K.eq self.old key.now self.new) }
        ensures no_memory { OnErr result (IsSome (value_for K.eq self.old key.now)) }
        ensures err { OnErr result (self.new ≡ self.old) }
        ensures succeeds { ((value : V) → V.is_infallible value) → IsOk result }
    {
        let value = self.keyed.get(key)?;
        self.keyed.discard(key);
        Ok(value)
    }

    // ---- the forms that ask for nothing

    /// Whether the call is one of this core that was not ready yet, and where it is new, whether its key's entry
    /// may have a caller more, which `poll_compute` asks for. It takes no memory.
    pub fn poll_compute_allowed<I>(&self, call: &KeyCall<K, I>) -> bool
        ensures { IsTrue result ↔ MayPollKey K.eq self.now call.now }
    {
        self.keyed.may_poll(call)
    }

    /// `poll_compute`, which polls the initialiser alone where the call is not one of this core or was ready.
    pub fn poll_compute_checked<E: Drop, I: Init<V, E, W>>(
        &mut self,
        call: &mut KeyCall<K, I>,
        waker: W,
    ) -> Result<Poll<Result<V, E>>, (Option<W>, NoMemory)>
        requires clones { (x y : V) → V.is_clone x y → y ≡ x }
        requires init { I.may_poll call.old.call.init }
        ensures again { MayPollKey K.eq self.old call.old → MayRun I.may_poll call.new }
        ensures pending { IfOk result (λ poll. poll ≡ Poll.Pending → I.may_poll call.new.call.init) }
        ensures allowed { MayPollKey K.eq self.old call.old → PollsKey I.answers K.eq false self.old call.old waker result self.new call.new }
        ensures alone { ¬ MayPollKey K.eq self.old call.old → (self.new ≡ self.old) × MatchResult result (λ poll. I.answers call.old.call.init waker poll call.new.call.init) (λ _. ⊥) }
        ensures back { IfErr result (λ failed. IfSome failed.0 (λ _. IsSameKeyed K.eq self.old self.new × (call.new ≡ call.old))) }
        ensures returned { ((value : V) → V.is_infallible value) → IfErr result (λ failed. IsSome failed.0) }
        ensures no_memory { ((value : V) → V.is_infallible value) → OnErr result (TakesMemory K.eq self.old call.old) }
    {
        self.keyed.poll_checked(call, waker, false)
    }

    /// Whether the call is one of this core, which `end_compute` asks for. It takes no memory.
    pub fn end_compute_allowed<I>(&self, call: &KeyCall<K, I>) -> bool
        ensures { IsTrue result ↔ MayEndKey K.eq self.now call.now }
    {
        self.keyed.may_end(call)
    }

    /// `end_compute`, which does nothing more where the call is not one of this core. It takes no memory.
    pub fn end_compute_checked<I: Drop>(&mut self, call: KeyCall<K, I>)
        ensures allowed { MayEndKey K.eq self.old call → EndsAt K.eq call.stage self.old call.call.stage self.new }
        ensures refused { ¬ MayEndKey K.eq self.old call → self.new ≡ self.old }
    {
        if self.end_compute_allowed(&call) {
            self.end_compute(call);
        }
    }

    /// How many calls wait for their turn, in all entries together. It takes no memory.
    pub fn waiting(&self) -> usize
        ensures { result ≡ waiting_in self.now.table.slots }
    {
        self.keyed.waiting()
    }

    /// How many wakers are ready. It takes no memory.
    pub fn wakes_ready(&self) -> usize
        ensures is { result ≡ length self.now.wakes }
        ensures bound { result < 2 ^ 63 }
    {
        self.keyed.wakes_ready()
    }

    /// Takes the first waker that is ready. It takes no memory.
    pub fn next_wake(&mut self) -> Option<W>
        ensures some { IfSome result (λ w. self.old ≡ record self.new { wakes = w ∷ self.new.wakes }) }
        ensures none { IfNone result ((self.old.wakes ≡ []) × (self.new ≡ self.old)) }
    {
        self.keyed.next_wake()
    }
}
