//! The program `tsds`.
#![tactic(auto)]

use edge_face::{ReaderSource, WriterSink};
use std::io::ErrorKind;
use std::process::ExitCode;
use std::{env, io};
use tsds_cli::{DONE, NO_MEMORY, USAGE, status_text, top};

/// The words of the command line.
fn words(rt: &HostRuntime) -> io::Result<Vec<String>> {
    env::args(rt)?.collect(rt.alloc()).map_err(io::Error::from)
}

/// The status where the words can't be had: there is no memory for them, or one isn't UTF-8.
fn status_without_words(error: io::Error) -> u8 {
    match error.kind() {
        ErrorKind::OutOfMemory => NO_MEMORY,
        _ => USAGE,
    }
}

/// Runs the program over the real devices.
fn run(rt: &HostRuntime) -> u8 {
    match words(rt) {
        Ok(words) => top(
            rt.alloc(),
            words.as_slice(),
            &mut ReaderSource::new(rt.stdin()),
            &mut WriterSink::new(rt.stdout()),
        ),
        Err(error) => status_without_words(error),
    }
}

fn main(rt: HostRuntime) -> ExitCode {
    let status = run(&rt);
    if status != DONE {
        // Where standard error takes nothing the status alone tells.
        let _ = rt.eprintln(status_text(status));
    }
    ExitCode::from(status)
}
