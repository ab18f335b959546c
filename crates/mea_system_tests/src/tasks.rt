mod ends;
mod executor;
mod programs;
