//! The program `mea_bench_shared`: uses each sort of shared type in rounds, on one thread or between threads, and prints how many
//! nanoseconds a round took; where std or the kit's tokio has the like, it stands beside it. It tells nothing of what the calls answer.
//!
//!     mea_bench_shared ROUNDS [WORK]      WORK, a name of the report, is done alone
//!
//! It ends with status 0, or with 6 where there was no memory or no thread, 5 where a write failed, 4 where the clock
//! failed, 1 where a call answered what it should not, and 7 where the words are not a number from 1 to 10000000 and at most one
//! name; then nothing is written.
#![tactic(auto)]

mod across;
mod alone;
mod channels;
mod handoff;
mod handover;
mod sending;
mod shots;
mod tasks;
mod work;

use crate::work::WORKS;
use mea_bench_waits::Fault;
use std::process::ExitCode;
use std::random::RandomSource;
use std::sync::Wait;
use std::thread::Threads;
use std::time::Clock;
use std::{env, io};

/// The most rounds that are run.
const MOST_ROUNDS: u64 = 10_000_000;

fn main(rt: HostRuntime) -> ExitCode {
    match words_of(&rt) {
        Ok(Some(asked)) => match report(&rt, &asked) {
            Ok(()) => ExitCode::SUCCESS,
            Err(fault) => ExitCode::from(fault.code()),
        },
        Ok(None) => ExitCode::from(7),
        Err(_) => ExitCode::from(6),
    }
}

// What the words of the command line ask for.
#[derive(Drop)]
struct Asked {
    rounds: u64,
    only: Option<String>,
}

impl Asked {
    // Whether the work of this name is to be done.
    fn wants(&self, name: &str) -> bool {
        match &self.only {
            Some(only) => only.as_str() == name,
            None => true,
        }
    }

    // Whether the number is in range, and the name is that of a work.
    fn is_known(&self) -> bool {
        (1..=MOST_ROUNDS).contains(&self.rounds) && WORKS.iter().any(|(name, _)| self.wants(*name))
    }
}

// A number of rounds, and a name or none; None where the words are something else.
fn words_of(rt: &(impl env::Env + AllocGlobal)) -> io::Result<Option<Asked>> {
    let mut words = env::args(rt)?.skip(1);
    let (Some(word), only, None) = (words.next(), words.next(), words.next()) else {
        return Ok(None);
    };
    let Ok(rounds) = word.parse::<u64>() else {
        return Ok(None);
    };
    Ok(Some(Asked { rounds, only }).filter(|asked| asked.is_known()))
}

// Measures each work in turn, and prints a line for it; beside std's and tokio's, what part of it ours took.
fn report<R: Print + Clock + Threads + Wait + RandomSource + AllocGlobal + Sync>(
    rt: &R,
    asked: &Asked,
) -> Result<(), Fault> {
    let mut before = 0u128;
    for (name, work) in &WORKS {
        if asked.wants(*name) {
            let all = work.nanoseconds(rt, asked.rounds)?;
            let each = all / u128::from(asked.rounds.max(1));
            if work.is_beside() && before > 0 {
                let percent = before.saturating_mul(100) / all.max(1);
                println!(rt; "{name} {each} ns, and ours took {percent} % of that")?;
            } else {
                println!(rt; "{name} {each} ns")?;
            }
            before = all;
        }
    }
    Ok(())
}
