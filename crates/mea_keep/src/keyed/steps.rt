//! The steps of a core of calls by key that are made under its lock. Each tells how many wakers it made ready.
ghost use Rattle.std.specs.Prelude.{ℕ, ◌≡◌, ◌-◌, length, None, IsSome, IsNone, IfSome, IfNone, MatchResult};
ghost use Rattle.mea_once_core.specs.declared.key_call.KeyStage.{KeyStage};
ghost use Rattle.mea_once_core.specs.Keyed.{MayPollKey, MayEndKey, EndsAt, PollsKey};
ghost use Rattle.mea_keep.specs.Promise.{Promises};

use crate::computed::Computed;
use crate::keyed::keyed_core::KeyedCore;
use crate::promise::Promise;
use mea_base::{NoMemory, Poll};
use mea_once_core::{KeyCall, KeyStage, Never};
use std::hash::Hash;

// What a poll of a call answers.
pub(super) type Answer<V, W> = Result<
    Poll<Result<Computed<V>, Never>>,
    (Option<Option<W>>, NoMemory),
>;

// Polls a call.
pub(super) fn poll<K: Eq + Hash, V, W, C: KeyedCore<K, V, W>>(
    core: &mut C,
    call: &mut KeyCall<K, Promise<Computed<V>, W>>,
    waker: Option<W>,
) -> (Answer<V, W>, usize)
    ensures allowed { MayPollKey K.eq (C.shows core.old) call.old → PollsKey Promises K.eq C.is_once (C.shows core.old) call.old waker result.0 (C.shows core.new) call.new }
    ensures alone { ¬ MayPollKey K.eq (C.shows core.old) call.old → (C.shows core.new ≡ C.shows core.old) × MatchResult result.0 (λ poll. Promises call.old.call.init waker poll call.new.call.init) (λ _. ⊥) }
    ensures made { result.1 ≡ length (C.shows core.new).wakes - length (C.shows core.old).wakes }
{
    let before = core.wakes_ready();
    let answer = core.poll(call, waker);
    (answer, core.wakes_ready().saturating_sub(before))
}

// Polls a call that is an entry's caller, so that a value that is there for it is handed out and not dropped by the core.
pub(super) fn take<K: Eq + Hash, V, W, C: KeyedCore<K, V, W>>(
    core: &mut C,
    call: &mut KeyCall<K, Promise<Computed<V>, W>>,
) -> Option<(Answer<V, W>, usize)>
    ensures allowed { IfSome result (λ told. MayPollKey K.eq (C.shows core.old) call.old → PollsKey Promises K.eq C.is_once (C.shows core.old) call.old None told.0 (C.shows core.new) call.new) }
    ensures alone { IfSome result (λ told. ¬ MayPollKey K.eq (C.shows core.old) call.old → C.shows core.new ≡ C.shows core.old) }
    ensures made { IfSome result (λ told. told.1 ≡ length (C.shows core.new).wakes - length (C.shows core.old).wakes) }
    ensures none { IfNone result ((C.shows core.new ≡ C.shows core.old) × (call.new ≡ call.old)) }
    ensures calls { (number : ℕ) → call.old.stage ≡ KeyStage.Calls number → IsSome result }
    ensures kept { (number : ℕ) → call.old.stage ≡ KeyStage.Kept number → IsSome result }
    ensures unpolled { (key : K) → call.old.stage ≡ KeyStage.New key → IsNone result }
    ensures done { call.old.stage ≡ KeyStage.Done → IsNone result }
{
    match call.stage {
        KeyStage::Calls { .. } | KeyStage::Kept { .. } => Some(poll(core, call, None)),
        KeyStage::New { .. } | KeyStage::Done => None,
    }
}

// Ends a call, which passes its turn on.
pub(super) fn end<K: Eq + Hash, V, W, C: KeyedCore<K, V, W>>(
    core: &mut C,
    call: KeyCall<K, Promise<Computed<V>, W>>,
) -> usize
    ensures allowed { MayEndKey K.eq (C.shows core.old) call → EndsAt K.eq call.stage (C.shows core.old) call.call.stage (C.shows core.new) }
    ensures refused { ¬ MayEndKey K.eq (C.shows core.old) call → C.shows core.new ≡ C.shows core.old }
    ensures made { result ≡ length (C.shows core.new).wakes - length (C.shows core.old).wakes }
{
    let before = core.wakes_ready();
    core.end(call);
    core.wakes_ready().saturating_sub(before)
}
