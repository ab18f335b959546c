//! The program `mea_draw`: draws a script of standard input as a picture to standard output. All that it does is
//! `run_draw`. Below stand the halls, in `mea_hall`, and the picture, in `mea_picture`.
#![tactic(auto)]

mod machine;
mod running;

use crate::running::run_draw;
use mea_io::{StdSink, StdSource};
use mea_picture::DrawStatus;
use mea_script::Status;
use std::process::ExitCode;
use std::{env, io};

fn main(rt: HostRuntime) -> ExitCode {
    let status = match words(&rt) {
        Ok(words) => {
            let mut source = StdSource::new(rt.stdin());
            let mut sink = StdSink::new(io::writer(&rt));
            run_draw(rt.alloc(), words.as_slice(), &mut source, &mut sink)
        }
        Err(failed) if failed.kind() == io::ErrorKind::OutOfMemory => {
            DrawStatus::Played(Status::NoMemory)
        }
        // A word that is no text.
        Err(_) => DrawStatus::Played(Status::Usage),
    };
    ExitCode::from(status.code())
}

// The words of the command line, without the program's name.
fn words(rt: &(impl env::Env + AllocGlobal)) -> io::Result<Vec<String>> {
    Ok(env::args(rt)?.skip(1).collect(rt.alloc())?)
}
