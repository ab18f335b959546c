//! Draws scripts by what `mea_play` is to reply to them, as the cases of standard input tell it: a line `#picture NAME` or
//! `#marks NAME`, and then the lines of a script, each with its reply and, where its semaphore has any, the free permits
//! after it. Of the first it writes the picture, of the second what the marks say. It stands on no hall.
#![tactic(auto)]

mod case;
mod kept;
mod reply;

use crate::case::draw_cases;
use mea_io::{StdSink, StdSource};
use mea_marks::read_script;
use std::io;
use std::process::ExitCode;

fn main(rt: HostRuntime) -> ExitCode {
    let mut source = StdSource::new(rt.stdin());
    let mut sink = StdSink::new(io::writer(&rt));
    match read_script(rt.alloc(), &mut source) {
        Ok(cases) if draw_cases(rt.alloc(), cases.as_slice(), &mut sink).is_ok() => {
            ExitCode::SUCCESS
        }
        _ => ExitCode::FAILURE,
    }
}
