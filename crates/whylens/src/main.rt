//! The program `whylens`: hands the words, the real files and the real output to the call that is
//! proved, and ends with its status.
#![tactic(auto)]

use std::env;
use std::io::ErrorKind;
use std::process::ExitCode;
use wy_lens::{Status, whylens};
use wy_outside::real::{FileShelf, StdoutSink};

fn main(rt: HostRuntime) -> ExitCode {
    let words = match words(&rt) {
        Ok(words) => words,
        Err(status) => return ExitCode::from(status.code()),
    };
    let status = whylens(
        rt.alloc(),
        words.as_slice(),
        &mut FileShelf::new(&rt),
        &mut StdoutSink::new(&rt),
    );
    ExitCode::from(status)
}

/// The words behind the program's own name, and none where one of them isn't UTF-8, so that they ask
/// nothing.
fn words(rt: &HostRuntime) -> Result<Vec<String>, Status> {
    match env::args(rt) {
        Ok(args) => {
            let mut words = Vec::new(rt.alloc());
            for word in args.skip(1) {
                words.push(word).map_err(|_| Status::NoMemory)?;
            }
            Ok(words)
        }
        Err(error) if error.kind() == ErrorKind::OutOfMemory => Err(Status::NoMemory),
        Err(_) => Ok(Vec::new(rt.alloc())),
    }
}
