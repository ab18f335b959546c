mod drains;
mod examples;
mod faults;
mod leases;
mod lines;
mod states;
mod usage;
