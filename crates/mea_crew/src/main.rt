//! The program `mea_crew`: threads share one recorded semaphore, and what is printed is read off its history.
//! `mea_crew_run` does the work.
#![tactic(auto)]

use mea_crew_run::{CrewStatus, run_crew};
use mea_io::StdSink;
use std::process::ExitCode;
use std::{env, io};

fn main(rt: HostRuntime) -> ExitCode {
    let status = match words(&rt) {
        Ok(words) => {
            let mut sink = StdSink::new(io::writer(&rt));
            run_crew(&rt, rt.alloc(), words.as_slice(), &mut sink)
        }
        Err(failed) if failed.kind() == io::ErrorKind::OutOfMemory => CrewStatus::NoMemory,
        // A word that is no text.
        Err(_) => CrewStatus::Usage,
    };
    ExitCode::from(status.code())
}

// The words of the command line, without the program's name.
fn words(rt: &(impl env::Env + AllocGlobal)) -> io::Result<Vec<String>> {
    Ok(env::args(rt)?.skip(1).collect(rt.alloc())?)
}
