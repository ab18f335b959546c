ghost use Rattle.std.specs.Prelude.{◌≡◌, ◌-◌, ◌<◌, ◌^◌, ◌↔◌, ◌∷◌, [], length, IsErr, IfSome, IfNone, OnErr, OnOk};
ghost use Rattle.mea_sets.specs.Countdown.{count_from};
ghost use Rattle.mea_meet_core.specs.Count.{tried};
ghost use Rattle.mea_meet_seats.specs.Seats.{AllThere, PollsSeats, fallen, vacated, with_handle};

use crate::seat::Seat;
use crate::vacancies::Vacancies;
use mea_base::{NoMemory, Overflow, Poll};
use mea_sets::{Countdown, Place};
use std::alloc::Global;
use std::marker::Model;

/// A count whose ended waits leave nothing behind: that of a latch, or that of the handles of a wait group. A wait has a
/// place once it is seated, and is `None` before.
pub struct CountSeats<W> {
    countdown: Countdown<Seat<W>>,
    free: Vacancies<Option<Place>>,
}

impl<W> Model for CountSeats<W> {
    ghost use Rattle.std.specs.Prelude.{◌+◌, ◌<◌, ◌≤◌, length};
    ghost use Rattle.mea_meet_seats.specs.Seats.{Seating, seating_code, AllThere};

    ghost Value = { Seating W };

    ghost coded = { seating_code W.code };

    ghost view = { λ s. record { seats = record { count = s.countdown.count; free = s.free.places }; wakes = s.countdown.wakes } };

    ghost invariant = { λ s. record {
      there : 0 < s.countdown.count.number → AllThere s.countdown.count.waiting s.free.places;
      room : length s.countdown.count.waiting.wakers ≤ length s.free.places + s.free.spare;
    } };
}

// Written out: a derived one is proved anew in each crate that hands a value of this type to a generic function.
impl<W: Drop> Drop for CountSeats<W> {
    fn drop(self) {
        let CountSeats {
            countdown: _,
            free: _,
        } = self;
    }
}

impl<W: Drop> CountSeats<W> {
    /// A count that nobody waits for. It takes no memory.
    pub fn new(alloc: Global, count: u32) -> Self
        ensures { result ≡ record { seats = record { count = count_from count; free = [] }; wakes = [] } }
    {
        CountSeats {
            countdown: Countdown::new(alloc, count),
            free: Vacancies::new(alloc),
        }
    }

    /// The count. It takes no memory.
    pub fn count(&self) -> u32
        ensures { result ≡ self.now.seats.count.number }
    {
        self.countdown.count()
    }

    /// Adds 1 to the count; where that is 0 it is Ok and changes nothing. It takes no memory.
    pub fn increment(&mut self) -> Result<(), Overflow>
        ensures ok { OnOk result (0 < self.old.seats.count.number → self.new ≡ record self.old { seats = with_handle self.old.seats }) }
        ensures overflow { IsErr result ↔ (self.old.seats.count.number ≡ u32.MAX) }
        ensures err { OnErr result (self.new ≡ self.old) }
        ensures ended { self.old.seats.count.number ≡ 0 → self.new ≡ self.old }
    {
        if self.countdown.count() == 0 {
            return Ok(());
        }
        self.countdown.increment(1)
    }

    /// Takes `n` from the count, at the least to 0, and wakes those who wait where it reaches 0 from above. It tells how
    /// many wakes that made ready, and takes no memory.
    pub fn decrement(&mut self, n: u32) -> usize
        ensures is { self.new ≡ fallen self.old n }
        ensures ended { self.old.seats.count.number ≡ 0 → self.new ≡ self.old }
        ensures made { result ≡ length self.new.wakes - length self.old.wakes }
    {
        let before = self.countdown.wakes_ready();
        self.countdown.decrement(n);
        self.countdown.wakes_ready().saturating_sub(before)
    }

    /// Ok at 0, else the count as the error. It takes no memory.
    pub fn try_wait(&self) -> Result<(), u32>
        ensures { result ≡ tried self.now.seats.count }
    {
        match self.countdown.count() {
            0 => Ok(()),
            count => Err(count),
        }
    }

    /// Is ready at 0. Else the wait is seated: at its own place, or at one that an ended wait gave back, or at a
    /// further one, which takes memory. Where there is none, the wait is a new one and nothing else has changed.
    pub fn poll(
        &mut self,
        wait: &mut Option<Place>,
        waker: W,
    ) -> Result<Poll<()>, (Seat<W>, NoMemory)>
        ensures polls { PollsSeats self.old.seats wait.old waker result self.new.seats wait.new }
        ensures wakes { self.new.wakes ≡ self.old.wakes }
    {
        if self.countdown.count() == 0 {
            return Ok(Poll::Ready(()));
        }
        let has_place = self.countdown.is_registered(wait);
        let places = self.countdown.registered();
        let Ok(()) = self.free.seat(wait, has_place, None, places) else {
            return Err((Seat::Taken(waker), NoMemory));
        };
        self.countdown.poll(wait, Seat::Taken(waker))
    }

    /// Ends a wait: its waker goes, and nobody is woken at its place, which is kept for the next wait where there is room to
    /// note it: each poll that takes a place makes that room. It takes no memory.
    pub fn withdraw(&mut self, wait: Option<Place>)
        ensures seats { self.new.seats ≡ vacated self.old.seats wait }
        ensures wakes { self.new.wakes ≡ self.old.wakes }
    {
        if !self.countdown.is_registered(&wait) {
            return;
        }
        let mut place = wait;
        let _ = self.countdown.poll(&mut place, Seat::Vacant);
        // The places that were given back are others than this one, so there is always room for it.
        if self.free.len() < self.countdown.registered() {
            self.free.give(place);
        }
    }

    /// How many places the set has, taken or vacant. It takes no memory.
    pub fn places(&self) -> usize
        ensures { result ≡ length self.now.seats.count.waiting.wakers }
    {
        self.countdown.registered()
    }

    /// How many of them are vacant and may be taken. It takes no memory.
    pub fn vacant(&self) -> usize
        ensures count { result ≡ length self.now.seats.free }
        ensures there { 0 < self.now.seats.count.number → AllThere self.now.seats.count.waiting self.now.seats.free }
    {
        self.free.len()
    }

    /// How many wakes are ready. It takes no memory.
    pub fn wakes_ready(&self) -> usize
        ensures is { result ≡ length self.now.wakes }
        ensures bound { result < 2 ^ 63 }
    {
        self.countdown.wakes_ready()
    }

    /// Takes the first that is ready. It takes no memory.
    pub fn next_wake(&mut self) -> Option<Seat<W>>
        ensures first { IfSome result (λ w. self.old ≡ record self.new { wakes = w ∷ self.new.wakes }) }
        ensures empty { IfNone result ((self.old.wakes ≡ []) × (self.new ≡ self.old)) }
    {
        self.countdown.next_wake()
    }
}
