ghost use Rattle.std.specs.Prelude.{◌≡◌, ◌+◌, ◌-◌, ◌≤◌, [], ◌∷◌, ◌++◌, length, false, if◌then◌else◌, OnErr, OnOk, IfSome, IfNone};
ghost use Rattle.mea_meet_seats.specs.Vacant.{Vacant, first_or, others_of};

use mea_base::NoMemory;
use std::alloc::Global;
use std::collections::VecDeque;
use std::marker::Model;

/// Places that ended waits have given back, for the waits to come, the oldest first.
///
/// Room is reserved when a place is taken, so that to give it back takes no memory.
pub struct Vacancies<P> {
    places: VecDeque<P>,
}

impl<P> Model for Vacancies<P> {
    ghost use Rattle.std.specs.Prelude.{◌-◌};
    ghost use Rattle.std.specs.VecDeque.{deque_capacity, deque_len};
    ghost use Rattle.mea_meet_seats.specs.Vacant.{Vacant, vacant_code};

    ghost Value = { Vacant P };

    ghost coded = { vacant_code P.code };

    ghost view = { λ v. record { places = v.places.items; spare = deque_capacity v.places - deque_len v.places } };
}

// Written out: a derived one is proved anew in each crate that hands a value of this type to a generic function.
impl<P: Drop> Drop for Vacancies<P> {
    fn drop(self) {
        let Vacancies { places: _ } = self;
    }
}

impl<P: Drop> Vacancies<P> {
    /// None yet. It takes no memory.
    pub fn new(alloc: Global) -> Self
        ensures { result.places ≡ [] }
    {
        Vacancies {
            places: VecDeque::new(alloc),
        }
    }

    /// Makes room for `n` more, which may take memory.
    pub fn reserve(&mut self, n: usize) -> Result<(), NoMemory>
        ensures room { OnOk result (n ≤ self.new.spare) }
        ensures grows { self.old.spare ≤ self.new.spare }
        ensures rest_kept { self.new ≡ record self.old { spare = self.new.spare } }
    {
        self.places.reserve(n)?;
        Ok(())
    }

    /// Gives a place back. It takes no memory.
    pub fn give(&mut self, place: P)
        requires { 1 ≤ self.old.spare }
        ensures { self.new ≡ record { places = self.old.places ++ place ∷ []; spare = self.old.spare - 1 } }
    {
        self.places.push_back_reserved(place);
    }

    /// Takes the place that was given back first. It takes no memory.
    pub fn take(&mut self) -> Option<P>
        ensures first { IfSome result (λ place. self.old.places ≡ place ∷ self.new.places) }
        ensures frees { IfSome result (λ _. self.old.spare + 1 ≤ self.new.spare) }
        ensures empty { IfNone result ((self.old.places ≡ []) × (self.new ≡ self.old)) }
    {
        self.places.pop_front()
    }

    /// Finds a place for a wait that is polled: its own, if it has one; else the first that was given back; else that
    /// of a new wait, and then room is made to give back one more than there are, which may take memory. On an error the wait
    /// is a new one.
    pub fn seat(
        &mut self,
        wait: &mut P,
        has_place: bool,
        new: P,
        places: usize,
    ) -> Result<(), NoMemory>
        requires { places ≤ length self.old.places + self.old.spare }
        ensures place { wait.new ≡ (if has_place then wait.old else first_or self.old.places new) }
        ensures others { self.new.places ≡ (if has_place then self.old.places else others_of self.old.places) }
        ensures room { OnOk result (places ≤ length self.new.places + self.new.spare) }
        ensures more { OnOk result (has_place ≡ false → self.old.places ≡ [] → places + 1 ≤ length self.new.places + self.new.spare) }
        ensures err { OnErr result ((has_place ≡ false) × (self.old.places ≡ []) × (self.old.spare ≤ self.new.spare)) }
    {
        if has_place {
            return Ok(());
        }
        match self.take() {
            Some(place) => {
                *wait = place;
                Ok(())
            }
            None => {
                *wait = new;
                self.reserve(places.checked_add(1).ok_or(NoMemory)?)
            }
        }
    }

    /// How many there are. It takes no memory.
    pub fn len(&self) -> usize
        ensures { result ≡ length self.now.places }
    {
        self.places.len()
    }
}
