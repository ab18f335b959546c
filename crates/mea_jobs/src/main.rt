//! The program `mea_jobs`: plays a script of jobs from standard input to standard output. `mea_job_run` does the work.
#![tactic(auto)]

use mea_io::{StdSink, StdSource};
use mea_job_run::run_jobs;
use mea_script::Status;
use std::process::ExitCode;
use std::{env, io};

fn main(rt: HostRuntime) -> ExitCode {
    let status = match words(&rt) {
        Ok(words) => {
            let mut source = StdSource::new(rt.stdin());
            let mut sink = StdSink::new(io::writer(&rt));
            run_jobs(rt.alloc(), words.as_slice(), &mut source, &mut sink)
        }
        Err(failed) if failed.kind() == io::ErrorKind::OutOfMemory => Status::NoMemory,
        // A word that is no text.
        Err(_) => Status::Usage,
    };
    ExitCode::from(status.code())
}

// The words of the command line, without the program's name.
fn words(rt: &(impl env::Env + AllocGlobal)) -> io::Result<Vec<String>> {
    Ok(env::args(rt)?.skip(1).collect(rt.alloc())?)
}
