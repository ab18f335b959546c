//! Tests of the semaphore that keeps its history and of the crew over it, and of semaphores whose permits are counted across
//! threads, by public contracts alone, with the program of docs/USING.md that draws a history; and of what `Debug` shows of each
//! event. It has no code but tests.
#![tactic(auto)]

#[cfg(test)]
mod crew;
#[cfg(test)]
mod history;
#[cfg(test)]
mod meeting;
#[cfg(test)]
mod passes;
#[cfg(test)]
mod program;
#[cfg(test)]
mod shared;
#[cfg(test)]
mod shown;
#[cfg(test)]
mod words;
