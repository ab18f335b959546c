//! Each family's hall by its public contracts alone, as tables of events with their replies and wakes, and the hall of all.
mod chan;
mod hall;
mod lock;
mod meet;
mod names;
mod once;
mod play;
mod sem;
mod share;
