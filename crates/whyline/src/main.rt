//! The program `whyline`: hands the words, the real files and the real streams to the call that is
//! proved, and ends with its status.
#![tactic(auto)]

use std::alloc::AllocError;
use std::env;
use std::io::ErrorKind;
use std::process::ExitCode;
use wy_framing::{FileTraceSink, FrameRecorder, TraceSink};
use wy_outside::real::{FileShelf, StdinSource, StdoutSink};
use wy_record::{CompareRecorder, MemoryRecorder, QuietRecorder, Recorder};
use wy_reply::Status;
use wy_top::{Recorders, whyline};

fn main(rt: HostRuntime) -> ExitCode {
    let words = match words(&rt) {
        Ok(words) => words,
        Err(status) => return ExitCode::from(status.code()),
    };
    match call(&rt, words.as_slice()) {
        Ok(status) => ExitCode::from(status),
        Err(_) => ExitCode::from(Status::NoMemory.code()),
    }
}

/// Calls the program over the real files and streams. A trace is written to one file.
fn call(rt: &HostRuntime, words: &[String]) -> Result<u8, AllocError> {
    let alloc = rt.alloc();
    let mut mirrors: Vec<Box<dyn TraceSink>> = Vec::new(alloc);
    mirrors.push(Box::new(alloc, FileTraceSink::new(*rt, alloc))?)?;
    let mut recorders = Recorders {
        write: FrameRecorder::new(alloc, mirrors),
        compare: CompareRecorder::new(alloc),
        memory: MemoryRecorder::new(alloc),
        quiet: QuietRecorder::new(alloc),
    };
    Ok(whyline(
        alloc,
        words,
        &mut FileShelf::new(rt),
        &mut StdinSource::new(rt),
        &mut StdoutSink::new(rt),
        &mut recorders,
    ))
}

/// The words behind the program's own name, and none where one of them isn't UTF-8, so that they are
/// no command.
fn words(rt: &HostRuntime) -> Result<Vec<String>, Status> {
    match env::args(rt) {
        Ok(args) => {
            let mut words = Vec::new(rt.alloc());
            for word in args.skip(1) {
                words.push(word).map_err(|_| Status::NoMemory)?;
            }
            Ok(words)
        }
        Err(error) if error.kind() == ErrorKind::OutOfMemory => Err(Status::NoMemory),
        Err(_) => Ok(Vec::new(rt.alloc())),
    }
}
