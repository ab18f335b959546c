ghost use Rattle.std.specs.Prelude.{◌≡◌, ℕ, ◌+◌, ◌≤◌, Bool, Some, None, [], false, length, option_to_list};
ghost use Rattle.std.specs.FinMap.{get};
ghost use Rattle.mea_family.specs.Family.{IsRun, RunOf, KeepsWakers, LosesNoWake};
ghost use Rattle.mea_by_name.specs.NamedQueue.{waker_for};
ghost use Rattle.mea_events.specs.declared.once_event.OnceEvent.{OnceEvent};
ghost use Rattle.mea_once_model.specs.declared.errand.Initialiser.{Initialiser};
ghost use Rattle.mea_once_model.specs.Cells.{Cell, CellFuture, Cells};
ghost use Rattle.mea_once_model.specs.Actions.{Settle, act_in};
ghost use Rattle.mea_once_model.specs.Tables.{Table, KeyFuture, Tables};
ghost use Rattle.mea_once_model.specs.KeyActions.{KeyAction, SettleKey, key_act};
ghost use Rattle.mea_once_model.specs.KeyValid.{AreValid};
ghost use Rattle.mea_once_model.specs.KeyValues.{value_at, takes_away};
ghost use Rattle.mea_once_model.specs.OnceHall.{OnceHall, TableKind, tables_of, is_once, registered};
ghost use Rattle.mea_once_model.specs.Meaning.{step, registers};
ghost use Rattle.mea_once_model.specs.OnceFamily.{onces_family};

/// A poll that replies `pending` places its waker; while that is placed, each further poll of the future
/// replies `pending`; and an event that takes it away, and neither polls nor ends the future, wakes it. Who
/// is neither polled nor ended lives on, and who is ended does not.
pub fn wakers_are_kept()
    ensures { KeepsWakers onces_family }
{}

/// A living future whose last poll replied `pending`, and whose next poll would reply something else, has
/// had the waker of that last poll woken since.
pub fn no_wake_is_lost()
    ensures { (run : RunOf onces_family) → IsRun onces_family run → LosesNoWake onces_family run }
{}

/// An event wakes no more wakers than were registered, registers at most one, and none but a poll registers any.
pub fn wakes_are_of_the_registered()
    ensures most { (h : OnceHall) (i : ℕ) (e : OnceEvent) → length (step h i e).wakes ≤ registered h }
    ensures grows { (h : OnceHall) (i : ℕ) (e : OnceEvent) → registered (step h i e).hall + length (step h i e).wakes ≤ registered h + 1 }
    ensures falls { (h : OnceHall) (i : ℕ) (e : OnceEvent) → registers e ≡ false → registered (step h i e).hall + length (step h i e).wakes ≤ registered h }
{}

/// To settle an initialiser wakes exactly the waker that it keeps, which is that of its last poll, if it was polled: before
/// its first poll, and where its caller waits for its turn, it wakes nobody.
pub fn a_settled_initialiser_is_woken()
    ensures cell { (h : Cells) (i f : ℕ) (r : Initialiser) (x : CellFuture) (c : Cell) → get h.futures f ≡ Some x → get h.cells x.cell ≡ Some c → (act_in h i (Settle f r)).wakes ≡ option_to_list (waker_for c.runner f) }
    ensures by_key { (once : Bool) (h : Tables) (i f n : ℕ) (r : Initialiser) (x : KeyFuture) (t : Table) (c : Cell) → get h.futures f ≡ Some x → get h.tables x.table ≡ Some t → x.round ≡ Some n → get t.rounds n ≡ Some c → (key_act once h i (SettleKey f r)).wakes ≡ option_to_list (waker_for c.runner f) }
    ensures new { (once : Bool) (h : Tables) (i f : ℕ) (r : Initialiser) (x : KeyFuture) (t : Table) → get h.futures f ≡ Some x → get h.tables x.table ≡ Some t → x.round ≡ None → (key_act once h i (SettleKey f r)).wakes ≡ [] }
{}

/// In each run the maps and groups are valid: the current round of a key is there, has no value yet, and is that of no other
/// key; a key with a value has none; and the map or group of a future is there, with the round that it is a caller of.
pub fn tables_are_valid()
    ensures { (run : RunOf onces_family) → IsRun onces_family run → (k : TableKind) → AreValid (tables_of run.hall k) }
{}

/// In each run the value of a key stays until the key is taken out, or its map or group dropped.
pub fn a_value_stays()
    ensures { (run : RunOf onces_family) (i : ℕ) (kind : TableKind) (a : KeyAction) (o k v : ℕ) → IsRun onces_family run → run.next ≤ i → value_at (tables_of run.hall kind) o k ≡ Some v → takes_away a o k ≡ false
        → value_at (key_act (is_once kind) (tables_of run.hall kind) i a).hall o k ≡ Some v }
{}
