mod calls;
mod examples;
mod faults;
mod lines;
mod play;
mod service;
mod states;
mod usage;
