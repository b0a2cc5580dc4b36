//! `tlatrace`: whether the logs of a distributed system can come from its TLA+ specification.
#![tactic(auto)]

use base_core::{HostFiles, HostSink};
use run_call::Status;
use run_library::{WithLibrary, run_with_library};
use std::env;
use std::io::{self, ErrorKind};
use std::process::ExitCode;

fn main(rt: HostRuntime) -> ExitCode {
    let words = match words(&rt) {
        Ok(words) => words,
        Err(error) => {
            if error.kind() == ErrorKind::OutOfMemory {
                return ExitCode::from(Status::Memory.code());
            }
            // Words that are no text are of no form, as no words are.
            Vec::new(rt.alloc())
        }
    };
    let mut files = WithLibrary::new(HostFiles::new(&rt));
    let mut out = HostSink::new(&rt);
    let status = run_with_library(rt.alloc(), &words, &mut files, &mut out);
    ExitCode::from(status.code())
}

/// The words behind the program's name.
fn words(rt: &HostRuntime) -> io::Result<Vec<String>> {
    let mut words = Vec::new(rt.alloc());
    for word in env::args(rt)?.skip(1) {
        words.push(word)?;
    }
    Ok(words)
}
