ghost use Rattle.std.specs.Prelude.{◌≡◌, ◌≢◌, ◌∷◌, ◌++◌, [], Option, Some, true, false, slice_set};
ghost use Rattle.mea_sets.specs.declared.place.Place.{Place};
ghost use Rattle.mea_sets.specs.WaitSet.{Registered, Follows, pairs_of, is_registered, has_given, fresh_place, index_of, with_waker, slot_after};

/// A set is the list of its pairs of a number and a waker: a registration replaces the waker of the pair
/// that the slot names, or else appends a pair.
pub fn a_set_is_its_pairs<W>()
    ensures replaced { (s : Registered W) (place : Place) (w : W) → is_registered s (Some place) ≡ true
        → pairs_of (with_waker s (Some place) w) ≡ slice_set (pairs_of s) place.index (place, w) }
    ensures appended { (s : Registered W) (slot : Option Place) (w : W) → is_registered s slot ≡ false
        → pairs_of (with_waker s slot w) ≡ pairs_of s ++ (fresh_place s, w) ∷ [] }
{}

/// The number of a registration never repeats, so that a waker that an ended wait has left is never
/// replaced by another wait.
pub fn numbers_never_repeat<W>()
    ensures unused { (s : Registered W) → has_given s (Some (fresh_place s)) ≡ false }
    ensures given { (s : Registered W) (slot : Option Place) (w : W) → has_given (with_waker s slot w) (slot_after s slot) ≡ true }
    ensures kept { (s t : Registered W) → Follows s t → (slot : Option Place) → has_given s slot ≡ true → has_given t slot ≡ true }
    ensures fresh { (s t : Registered W) → Follows s t → (slot : Option Place) → has_given s slot ≡ true → slot ≢ Some (fresh_place t) }
{}
