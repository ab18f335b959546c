//! The program `mea_named`: threads share one semaphore whose permits are counted across them.
//! `mea_named_run` does the work.
#![tactic(auto)]

use mea_io::StdSink;
use mea_named_run::{NamedStatus, run_named};
use std::process::ExitCode;
use std::{env, io};

fn main(rt: HostRuntime) -> ExitCode {
    let status = match words(&rt) {
        Ok(words) => {
            let mut sink = StdSink::new(io::writer(&rt));
            run_named(&rt, rt.alloc(), words.as_slice(), &mut sink)
        }
        Err(failed) if failed.kind() == io::ErrorKind::OutOfMemory => NamedStatus::NoMemory,
        // A word that is no text.
        Err(_) => NamedStatus::Usage,
    };
    ExitCode::from(status.code())
}

// The words of the command line, without the program's name.
fn words(rt: &(impl env::Env + AllocGlobal)) -> io::Result<Vec<String>> {
    Ok(env::args(rt)?.skip(1).collect(rt.alloc())?)
}
