ghost use Rattle.std.specs.Prelude.{ℕ, ◌≡◌, List, Option, Some};
ghost use Rattle.std.specs.Ordering.{nat_cmp};
ghost use Rattle.std.specs.FinMap.{FinMap, get, insert};
ghost use Rattle.mea_base.specs.Queue.{waiting_after, granted_in};
ghost use Rattle.mea_by_name.specs.declared.named_waker.NamedWaker.{NamedWaker};
ghost use Rattle.mea_by_name.specs.ByName.{Names};
ghost use Rattle.mea_by_name.specs.NamedQueue.{registering};
ghost use Rattle.mea_sem_core.specs.declared.acquire.Acquire.{Acquire};
ghost use Rattle.mea_sem_core.specs.Core.{Waiter, granting};
ghost use Rattle.mea_sets.specs.declared.place.Place.{Place};
ghost use Rattle.mea_sets.specs.WaitSet.{Registered, with_waker, slot_after};
ghost use Rattle.mea_cores_by_name.specs.Linked.{Linked};
ghost use Rattle.mea_cores_by_name.specs.SetLinked.{SetLinked, set_names};

/// However many permits are poured, each number that is granted or waits is that of the future which its
/// waker named.
pub fn a_pour_keeps_links()
    ensures { (q : List (Waiter NamedWaker × ℕ)) (granted : FinMap nat_cmp ℕ) (acquires : Names Acquire) (n : ℕ) → Linked q granted acquires → Linked (waiting_after q n) (granting granted (granted_in q n)) acquires }
{}

/// A future that registers a waker replaces its own or comes last, by name as by number.
pub fn a_registration_keeps_links()
    ensures links { (s : Registered NamedWaker) (slots : Names (Option Place)) (n f w : ℕ) (slot : Option Place) → SetLinked s slots n → get slots f ≡ Some slot → SetLinked (with_waker s slot (record { name = f; waker = w })) (insert slots f (slot_after s slot)) n }
    ensures names { (s : Registered NamedWaker) (slots : Names (Option Place)) (n f w : ℕ) (slot : Option Place) → SetLinked s slots n → get slots f ≡ Some slot → set_names (with_waker s slot (record { name = f; waker = w })) ≡ registering (set_names s) f w }
{}
