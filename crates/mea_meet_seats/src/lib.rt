//! The meeting points' cores for those who share them, where a wait that ends leaves nothing behind: its waker goes
//! at once, and its place in the set of wakers is taken by the next wait. So a set has room for those who wait at
//! one time, however many have come and gone.
//!
//! A latch and a wait group stand each on a countdown of `mea_sets`, and a barrier on its core of `mea_meet_core`, by their
//! contracts alone. Their wakers are seats here: taken, or vacant.
#![tactic(auto)]

mod at_barrier;
mod count_seats;
mod room_laws;
mod seat;
mod vacancies;

pub use at_barrier::withdraw_from;
pub use count_seats::CountSeats;
pub use room_laws::a_set_has_room_for_those_who_wait_at_one_time;
pub use seat::Seat;
pub use vacancies::Vacancies;
