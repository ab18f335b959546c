//! The program `mea_task`: runs a program of tasks from standard input, and writes to standard output what has become of it.
//! `mea_task_run` does the work.
#![tactic(auto)]

use mea_io::{StdSink, StdSource};
use mea_script::Status;
use mea_task_run::run_tasks;
use std::process::ExitCode;
use std::{env, io};

fn main(rt: HostRuntime) -> ExitCode {
    let status = match words(&rt) {
        Ok(words) => {
            let mut source = StdSource::new(rt.stdin());
            let mut sink = StdSink::new(io::writer(&rt));
            run_tasks(rt.alloc(), words.as_slice(), &mut source, &mut sink)
        }
        Err(failed) if failed.kind() == io::ErrorKind::OutOfMemory => Status::NoMemory,
        // A word that is no text.
        Err(_) => Status::Usage,
    };
    ExitCode::from(status.code())
}

// The words of the command line, without the program's name.
fn words(rt: &(impl env::Env + AllocGlobal)) -> io::Result<Vec<String>> {
    Ok(env::args(rt)?.skip(1).collect(rt.alloc())?)
}
