ghost use Rattle.std.specs.Prelude.{ℕ, ◌≡◌, ◌≢◌, ◌+◌, ◌++◌, List, [], length, map, true, nat_lt, Ok, Result};
ghost use Rattle.mea_base.specs.declared.no_memory.NoMemory.{NoMemory};
ghost use Rattle.mea_pool_core.specs.Shelf.{times, one_if, slots_of};
ghost use Rattle.mea_pool_core.specs.Pool.{Pool, is_drained};
ghost use Rattle.mea_pool_core.specs.Runs.{History, Runs, Further, IsRising};

/// After every list of calls each slot is on the shelf once, or lent to exactly one lease that was got and not put back.
pub fn each_slot_stands_once<R, W>()
    ensures { (resources : List R) (p : Pool R W) (h : History) → Runs resources p h → (slot : ℕ) → times slot (slots_of p.shelf) + times slot h.out ≡ one_if (nat_lt slot (length resources)) }
{}

/// After every list of calls places were granted in the order of first polls, and those that wait are later than all that
/// were granted and stand in that order.
pub fn leases_are_granted_in_order<R, W>()
    ensures order { (resources : List R) (p : Pool R W) (h : History) → Runs resources p h → IsRising (h.granted ++ map {A = ℕ × ℕ} (λ e. e.1) h.line) }
    ensures line { (resources : List R) (p : Pool R W) (h : History) → Runs resources p h → map {A = ℕ × ℕ} (λ e. e.0) h.line ≡ map {A = ℕ × W} (λ e. e.0) p.waiting }
{}

/// Once a pool is drained it stays so, whatever is called: all its resources are on the shelf, no lease is out, and nobody waits
/// for that any more.
pub fn a_drained_pool_stays_drained<R, W>()
    ensures stays { (resources : List R) (p p' : Pool R W) (h h' : History) → Runs resources p h → is_drained p ≡ true → Further p h p' h' → is_drained p' ≡ true }
    ensures all { (resources : List R) (p : Pool R W) (h : History) → Runs resources p h → is_drained p ≡ true → (length p.shelf ≡ length resources) × (h.out ≡ []) }
    ensures told { (resources : List R) (p : Pool R W) (h : History) → Runs resources p h → is_drained p ≡ true → p.drains ≡ [] }
{}
