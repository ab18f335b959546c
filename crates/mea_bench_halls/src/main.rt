//! The program `mea_bench_halls`: plays rounds of events of each family on the halls nine times over, and prints how many
//! nanoseconds one event took in the fastest play. It tells nothing of the replies: what they are is what `mea_hall` promises.
//!
//!     mea_bench_halls ROUNDS
//!     mea_bench_halls ROUNDS WORK      writes the script of a work, a name of the report, for other programs to play
//!
//! It ends with status 0, or with 6 where there was no memory, 5 where a write failed, 4 where the clock failed, and 7
//! where the words are not a number from 1 to 100000 and at most one name; then nothing is written.
#![tactic(auto)]

mod measure;
mod works;

use crate::measure::{Fault, hundredths_per_event};
use crate::works::{WORKS, script_of};
use mea_text::number_of;
use std::process::ExitCode;
use std::{env, io};

/// The most rounds that are played of a work.
const MOST_ROUNDS: u64 = 100_000;

fn main(rt: HostRuntime) -> ExitCode {
    match words_of(&rt) {
        Ok(Some(asked)) => match answer(&rt, &asked) {
            Ok(()) => ExitCode::SUCCESS,
            Err(fault) => ExitCode::from(fault.code()),
        },
        Ok(None) => ExitCode::from(7),
        Err(_) => ExitCode::from(6),
    }
}

// What the words of the command line ask for.
#[derive(Drop)]
struct Asked {
    rounds: u64,
    script: Option<String>,
}

impl Asked {
    // Whether the number is in range, and the name is that of a work.
    fn is_known(&self) -> bool {
        let is_work = match &self.script {
            Some(name) => WORKS.iter().any(|work| work.name == name.as_str()),
            None => true,
        };
        is_work && (1..=MOST_ROUNDS).contains(&self.rounds)
    }
}

// A number of rounds, and a name or none; None where the words are something else.
fn words_of(rt: &(impl env::Env + AllocGlobal)) -> io::Result<Option<Asked>> {
    let mut words = env::args(rt)?.skip(1);
    let (Some(word), script, None) = (words.next(), words.next(), words.next()) else {
        return Ok(None);
    };
    let Some(rounds) = number_of(word.as_bytes()) else {
        return Ok(None);
    };
    Ok(Some(Asked { rounds, script }).filter(|asked| asked.is_known()))
}

fn answer(rt: &HostRuntime, asked: &Asked) -> Result<(), Fault> {
    match &asked.script {
        Some(name) => write_script(rt, name.as_str(), asked.rounds),
        None => report(rt, asked.rounds),
    }
}

// Measures each work in turn, and prints a line for it.
fn report(rt: &HostRuntime, rounds: u64) -> Result<(), Fault> {
    for work in &WORKS {
        let hundredths = hundredths_per_event(rt, work, rounds)?;
        println!(rt;
            "{} {}.{:02} ns",
            work.name,
            hundredths / 100,
            hundredths % 100
        )?;
    }
    Ok(())
}

// Writes the script of the work of this name.
fn write_script(rt: &HostRuntime, name: &str, rounds: u64) -> Result<(), Fault> {
    for work in &WORKS {
        if work.name == name {
            let script = script_of(rt.alloc(), work, rounds)?;
            print!(rt; "{script}")?;
        }
    }
    Ok(())
}
