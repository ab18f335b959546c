//! The program `mea_pool`: plays a script of a resource pool from standard input to standard output. `mea_pool_run` does
//! the work.
#![tactic(auto)]

use mea_io::{StdSink, StdSource};
use mea_pool_run::run_pool;
use mea_script::Status;
use std::process::ExitCode;
use std::{env, io};

fn main(rt: HostRuntime) -> ExitCode {
    let status = match words(&rt) {
        Ok(words) => {
            let mut source = StdSource::new(rt.stdin());
            let mut sink = StdSink::new(io::writer(&rt));
            run_pool(rt.alloc(), words.as_slice(), &mut source, &mut sink)
        }
        Err(failed) if failed.kind() == io::ErrorKind::OutOfMemory => Status::NoMemory,
        // A word that is no text.
        Err(_) => Status::Usage,
    };
    ExitCode::from(status.code())
}

// The words of the command line, without the program's name.
fn words(rt: &(impl env::Env + AllocGlobal)) -> io::Result<Vec<String>> {
    Ok(env::args(rt)?.skip(1).collect(rt.alloc())?)
}
