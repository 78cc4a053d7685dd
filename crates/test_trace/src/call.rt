//! One call of the whole program over what stands in memory, and what it leaves.

ghost use Rattle.std.specs.Prelude.{◌≡◌, [], IfOk, Some};
ghost use Rattle.wy_outside.specs.Shelf.{AreDistinct};

use crate::programs::Program;
use std::alloc::{AllocError, Global};
use wy_framing::{FrameRecorder, MemoryTraceSink, TraceSink};
use wy_outside::memory::{MemoryShelf, MemorySink, MemorySource};
use wy_outside::shelf::Shelf;
use wy_record::{CompareRecorder, MemoryRecorder, QuietRecorder, Recorder};
use wy_top::{Recorders, whyline};

/// Which call of each fails, counted from 1. None fails where it is 0.
#[derive(Clone, Copy, Debug)]
pub struct Fails {
    pub shelf: u32,
    pub keys: u32,
    pub out: u32,
    pub first: u32,
    pub second: u32,
}

pub const NOTHING: Fails = Fails {
    shelf: 0,
    keys: 0,
    out: 0,
    first: 0,
    second: 0,
};

/// What a call is made over: the files `Main.java` and `in` of a program, `old` and `cert`, and the lines of the keys.
#[derive(Clone, Copy)]
pub struct Given<'a> {
    pub program: Program,
    pub trace: &'a [u8],
    pub certificate: &'a [u8],
    pub lines: &'a [u8],
}

/// What a call left: its status, what it wrote, what the two mirrors hold, and what of the keys is still to come.
#[derive(Drop)]
pub struct Left {
    pub status: u8,
    pub written: Vec<u8>,
    pub first: Vec<u8>,
    pub second: Vec<u8>,
    pub lines: Vec<u8>,
}

pub fn files(alloc: Global, given: Given<'_>) -> Result<Vec<(String, Vec<u8>)>, AllocError>
    ensures { IfOk result (λ files. AreDistinct files.items) }
{
    let source = (
        String::from_str(alloc, "Main.java")?,
        Vec::from_slice(alloc, given.program.source.as_bytes())?,
    );
    let input = (
        String::from_str(alloc, "in")?,
        Vec::from_slice(alloc, given.program.input.as_bytes())?,
    );
    let trace = (
        String::from_str(alloc, "old")?,
        Vec::from_slice(alloc, given.trace)?,
    );
    let certificate = (
        String::from_str(alloc, "cert")?,
        Vec::from_slice(alloc, given.certificate)?,
    );
    Ok(vec![in alloc; source, input, trace, certificate]?)
}

fn sink(alloc: Global, fails: u32) -> Result<MemoryTraceSink, AllocError>
    ensures bytes { IfOk result (λ sink.
        ⟦<MemoryTraceSink as TraceSink>⟧.bytes sink ≡ Some []) }
    ensures faults { IfOk result (λ sink. ⟦<MemoryTraceSink as TraceSink>⟧.faults sink ≡ 0) }
{
    Ok(MemoryTraceSink::new(alloc, Vec::from_slice(alloc, &[fails])?))
}

fn words_of(alloc: Global, line: &str) -> Result<Vec<String>, AllocError> {
    let mut words = Vec::new(alloc);
    for word in line.split(' ') {
        words.push(String::from_str(alloc, word)?)?;
    }
    Ok(words)
}

/// Calls the program by the words of a line, over the files of a program and a trace in memory, of which a call may fail, and
/// with no keys.
pub fn call(
    alloc: Global,
    line: &str,
    program: Program,
    trace: &[u8],
    fails: Fails,
) -> Result<Left, AllocError> {
    let given = Given {
        program,
        trace,
        certificate: b"",
        lines: b"",
    };
    call_with(alloc, line, given, fails)
}

/// The same, with a certificate and keys.
pub fn call_with(
    alloc: Global,
    line: &str,
    given: Given<'_>,
    fails: Fails,
) -> Result<Left, AllocError> {
    let mut shelf = MemoryShelf::new(
        files(alloc, given)?,
        Vec::from_slice(alloc, &[fails.shelf])?,
    );
    call_over(alloc, line, &mut shelf, given.lines, fails)
}

/// The same, over any files.
pub fn call_over<S: Shelf>(
    alloc: Global,
    line: &str,
    shelf: &mut S,
    lines: &[u8],
    fails: Fails,
) -> Result<Left, AllocError> {
    let words = words_of(alloc, line)?;
    let mut keys = MemorySource::new(
        Vec::from_slice(alloc, lines)?,
        Vec::from_slice(alloc, &[fails.keys])?,
    );
    let mut out = MemorySink::new(alloc, Vec::from_slice(alloc, &[fails.out])?);
    let mut mirrors: Vec<Box<dyn TraceSink>> = Vec::new(alloc);
    mirrors.push(Box::new(alloc, sink(alloc, fails.first)?)?)?;
    mirrors.push(Box::new(alloc, sink(alloc, fails.second)?)?)?;
    let mut recorders = Recorders {
        write: FrameRecorder::new(alloc, mirrors),
        compare: CompareRecorder::new(alloc),
        memory: MemoryRecorder::new(alloc),
        quiet: QuietRecorder::new(alloc),
    };
    let status = whyline(
        alloc,
        words.as_slice(),
        shelf,
        &mut keys,
        &mut out,
        &mut recorders,
    );
    Ok(Left {
        status,
        written: Vec::from_slice(alloc, out.bytes())?,
        first: recorders.write.mirror(0)?.unwrap_or(Vec::new(alloc)),
        second: recorders.write.mirror(1)?.unwrap_or(Vec::new(alloc)),
        lines: Vec::from_slice(alloc, keys.rest())?,
    })
}
