//! `vublk`, a vhost-user block backend. Its command `replay` runs a schedule and prints its records,
//! `entries` prints the history of the same run.
#![tactic(auto)]

mod command;
#[cfg(test)]
mod interleavings;
#[cfg(test)]
mod lives;
mod no_bell;
mod pieces;
mod printing;
mod reading;
mod replay;
#[cfg(test)]
mod restarts;
#[cfg(test)]
mod tests;
mod words;

use no_bell::NoBell;
use std::alloc::{AllocError, Global};
use std::env;
use std::io::ErrorKind;
use std::process::ExitCode;
use vub_disk::NoDisk;
use vub_edge::{FileSink, FileSource};
use vub_shared::MemShared;

/// The words after the program's name. Where one isn't UTF-8, none: such words aren't accepted either.
fn words_of(alloc: Global, rt: &HostRuntime) -> Result<Vec<String>, AllocError> {
    match env::args(rt) {
        Ok(mut args) => {
            let _name = args.next();
            args.collect::<Vec<String>>(alloc)
        }
        Err(error) => match error.kind() {
            ErrorKind::OutOfMemory => Err(AllocError),
            _ => Ok(Vec::new(alloc)),
        },
    }
}

fn main(rt: HostRuntime) -> ExitCode {
    let alloc = rt.alloc();
    let Ok(words) = words_of(alloc, &rt) else {
        return ExitCode::from(3);
    };
    let mut input = FileSource::new(rt.stdin());
    let mut out = FileSink::new(rt.stdout());
    let mut regions = MemShared::new(alloc, Vec::new(alloc));
    let status = command::run(
        alloc,
        &words,
        &mut input,
        &mut out,
        &mut regions,
        &mut NoDisk,
        &mut NoBell,
    );
    ExitCode::from(status)
}
