ghost use Rattle.std.specs.Prelude.{◌≡◌, [], ◌∷◌, length, Bool, Option, true, false, IfSome, IfNone, MatchResult};
ghost use Rattle.mea_once_core.specs.Keyed.{Keyed, MayPollKey, MayEndKey, EndsAt, PollsKey};
ghost use Rattle.mea_keep.specs.Promise.{Promises};

use crate::computed::Computed;
use crate::promise::Promise;
use mea_base::{NoMemory, Poll};
use mea_once_core::{FlightCore, KeyCall, MapCore, Never};
use std::hash::{BuildHasher, Hash};

/// A core of calls by key, whose initialisers are promises: that of a map, or that of a group.
pub trait KeyedCore<K: Eq + Hash, V, W>: Drop {
    ghost use Rattle.mea_keep.specs.declared.computed.Computed.{Computed};

    // What a contract sees of it.
    ghost shows: { Self → Keyed K (Computed V) (Option W) };

    // Whether a value is for one round alone.
    ghost is_once: { Bool };

    // Polls a call.
    fn poll(
        &mut self,
        call: &mut KeyCall<K, Promise<Computed<V>, W>>,
        waker: Option<W>,
    ) -> Result<Poll<Result<Computed<V>, Never>>, (Option<Option<W>>, NoMemory)>
        ensures allowed { MayPollKey K.eq (shows self.old) call.old → PollsKey Promises K.eq is_once (shows self.old) call.old waker result (shows self.new) call.new }
        ensures alone { ¬ MayPollKey K.eq (shows self.old) call.old → (shows self.new ≡ shows self.old) × MatchResult result (λ poll. Promises call.old.call.init waker poll call.new.call.init) (λ _. ⊥) };

    // Ends a call.
    fn end(&mut self, call: KeyCall<K, Promise<Computed<V>, W>>)
        ensures allowed { MayEndKey K.eq (shows self.old) call → EndsAt K.eq call.stage (shows self.old) call.call.stage (shows self.new) }
        ensures refused { ¬ MayEndKey K.eq (shows self.old) call → shows self.new ≡ shows self.old };

    // How many wakers are ready.
    fn wakes_ready(&self) -> usize
        ensures { result ≡ length (shows self.now).wakes };

    // Takes the first waker that is ready.
    fn next_wake(&mut self) -> Option<Option<W>>
        ensures some { IfSome result (λ waker. shows self.old ≡ record (shows self.new) { wakes = waker ∷ (shows self.new).wakes }) }
        ensures none { IfNone result (((shows self.old).wakes ≡ []) × (shows self.new ≡ shows self.old)) };
}

impl<K: Eq + Hash + Drop, V: Drop, S: BuildHasher + Drop, W: Drop> KeyedCore<K, V, W>
    for MapCore<K, Computed<V>, S, Option<W>> {
    ghost shows = { λ core. core };

    ghost is_once = { false };

    fn poll(
        &mut self,
        call: &mut KeyCall<K, Promise<Computed<V>, W>>,
        waker: Option<W>,
    ) -> Result<Poll<Result<Computed<V>, Never>>, (Option<Option<W>>, NoMemory)>
        ensures allowed { MayPollKey K.eq self.old call.old → PollsKey Promises K.eq false self.old call.old waker result self.new call.new }
        ensures alone { ¬ MayPollKey K.eq self.old call.old → (self.new ≡ self.old) × MatchResult result (λ poll. Promises call.old.call.init waker poll call.new.call.init) (λ _. ⊥) }
    {
        self.poll_compute_checked(call, waker)
    }

    fn end(&mut self, call: KeyCall<K, Promise<Computed<V>, W>>)
        ensures allowed { MayEndKey K.eq self.old call → EndsAt K.eq call.stage self.old call.call.stage self.new }
        ensures refused { ¬ MayEndKey K.eq self.old call → self.new ≡ self.old }
    {
        self.end_compute_checked(call);
    }

    fn wakes_ready(&self) -> usize {
        MapCore::wakes_ready(self)
    }

    fn next_wake(&mut self) -> Option<Option<W>> {
        MapCore::next_wake(self)
    }
}

impl<K: Eq + Hash + Drop, V: Drop, S: BuildHasher + Drop, W: Drop> KeyedCore<K, V, W>
    for FlightCore<K, Computed<V>, S, Option<W>> {
    ghost shows = { λ core. core };

    ghost is_once = { true };

    fn poll(
        &mut self,
        call: &mut KeyCall<K, Promise<Computed<V>, W>>,
        waker: Option<W>,
    ) -> Result<Poll<Result<Computed<V>, Never>>, (Option<Option<W>>, NoMemory)>
        ensures allowed { MayPollKey K.eq self.old call.old → PollsKey Promises K.eq true self.old call.old waker result self.new call.new }
        ensures alone { ¬ MayPollKey K.eq self.old call.old → (self.new ≡ self.old) × MatchResult result (λ poll. Promises call.old.call.init waker poll call.new.call.init) (λ _. ⊥) }
    {
        self.poll_work_checked(call, waker)
    }

    fn end(&mut self, call: KeyCall<K, Promise<Computed<V>, W>>)
        ensures allowed { MayEndKey K.eq self.old call → EndsAt K.eq call.stage self.old call.call.stage self.new }
        ensures refused { ¬ MayEndKey K.eq self.old call → self.new ≡ self.old }
    {
        self.end_work_checked(call);
    }

    fn wakes_ready(&self) -> usize {
        FlightCore::wakes_ready(self)
    }

    fn next_wake(&mut self) -> Option<Option<W>> {
        FlightCore::next_wake(self)
    }
}
