//! Reads the files that the words name.
ghost use Rattle.std.specs.Prelude.{◌≡◌, ◌≤◌, ◌<◌, ◌^◌, IfOk, length, option_map};
ghost use Rattle.wy_outside.specs.Counts.{RoseAt};
ghost use Rattle.wy_kernel.specs.Limits.{source_limit, trace_limit};
ghost use Rattle.wy_top.specs.Held.{certificate_limit};
ghost use Rattle.wy_top.specs.Paging.{GivesFirst, GivesFront, IsShort};
ghost use Rattle.wy_top.specs.Reads.{GivesBoth, GivesFile, is_absent, is_fault, is_too_long, lack};

use std::alloc::Global;
use wy_kernel::limit::{INPUT_LIMIT, SOURCE_LIMIT, TRACE_LIMIT};
use wy_outside::shelf::{Shelf, ShelfError};

/// Bytes of a certificate.
const CERTIFICATE_LIMIT: u32 = 536_870_912;

/// Bytes of the magic, and of the letter and the length of the frame behind it.
const HEAD_START: u32 = 13;

/// Why a file was not read.
#[derive(Clone, Copy)]
pub enum FileError<'a> {
    Absent { name: &'a str },
    TooLong { name: &'a str },
    /// The shelf failed.
    Fault,
    NoMemory,
}

/// The text of a source, and the input of its run.
#[derive(Drop)]
pub struct Contents {
    pub source: Vec<u8>,
    pub input: Vec<u8>,
}

/// The file of a name, if it has at most so many bytes.
fn read_file<'a, S: Shelf>(
    alloc: Global,
    shelf: &mut S,
    name: &'a str,
    limit: u32,
) -> Result<Vec<u8>, FileError<'a>>
    requires { limit < 2 ^ 31 }
    ensures content { GivesFile (S.held shelf.old) name.now limit result }
    ensures bound { IfOk result (λ bytes. length bytes.items ≤ limit) }
    ensures fault { RoseAt is_fault result (S.faults shelf.old) (S.faults shelf.new) }
    ensures absent { RoseAt is_absent result (S.misses shelf.old) (S.misses shelf.new) }
    ensures too_long { RoseAt is_too_long result (S.fulls shelf.old) (S.fulls shelf.new) }
    ensures files_stay { S.held shelf.new ≡ S.held shelf.old }
{
    match shelf.read(alloc, name, limit + 1) {
        Ok(bytes) if bytes.len() > limit as usize => Err(FileError::TooLong { name }),
        Ok(bytes) => Ok(bytes),
        Err(error) => Err(lack(name, error)),
    }
}

/// Why a file of a name was not read.
fn lack(name: &str, error: ShelfError) -> FileError<'_>
    ensures { result ≡ lack name.entry error }
{
    match error {
        ShelfError::Failed => FileError::Fault,
        ShelfError::Absent => FileError::Absent { name },
        ShelfError::NoMemory => FileError::NoMemory,
    }
}

/// The source of a name, and then the input of another, which is empty where none is named.
pub fn read_both<'a, S: Shelf>(
    alloc: Global,
    shelf: &mut S,
    source: &'a str,
    input: Option<&'a str>,
) -> Result<Contents, FileError<'a>>
    ensures content { GivesBoth (S.held shelf.old) source.now
        (option_map (λ s. s.now) input.entry) result }
    ensures bound { IfOk result (λ contents. length contents.source.items ≤ source_limit) }
    ensures fault { RoseAt is_fault result (S.faults shelf.old) (S.faults shelf.new) }
    ensures absent { RoseAt is_absent result (S.misses shelf.old) (S.misses shelf.new) }
    ensures too_long { RoseAt is_too_long result (S.fulls shelf.old) (S.fulls shelf.new) }
    ensures files_stay { S.held shelf.new ≡ S.held shelf.old }
{
    let source = read_file(alloc, shelf, source, SOURCE_LIMIT)?;
    let input = match input {
        Some(name) => read_file(alloc, shelf, name, INPUT_LIMIT)?,
        None => Vec::new(alloc),
    };
    Ok(Contents { source, input })
}

/// The bytes of the trace of a name.
pub fn read_trace<'a, S: Shelf>(
    alloc: Global,
    shelf: &mut S,
    name: &'a str,
) -> Result<Vec<u8>, FileError<'a>>
    ensures content { GivesFile (S.held shelf.old) name.now trace_limit result }
    ensures bound { IfOk result (λ bytes. length bytes.items ≤ trace_limit) }
    ensures fault { RoseAt is_fault result (S.faults shelf.old) (S.faults shelf.new) }
    ensures absent { RoseAt is_absent result (S.misses shelf.old) (S.misses shelf.new) }
    ensures too_long { RoseAt is_too_long result (S.fulls shelf.old) (S.fulls shelf.new) }
    ensures files_stay { S.held shelf.new ≡ S.held shelf.old }
{
    read_file(alloc, shelf, name, TRACE_LIMIT)
}

/// How far the frame of a trace's head reaches, as its first bytes say.
fn front_length(start: &[u8]) -> u32
    ensures { result ≤ trace_limit }
{
    if start.len() < HEAD_START as usize {
        return HEAD_START;
    }
    let payload = u32::from_be_bytes([start[9], start[10], start[11], start[12]]);
    HEAD_START.saturating_add(payload).min(TRACE_LIMIT)
}

/// Refuses the file of a name where it has more bytes than a trace may have.
fn check_length<'a, S: Shelf>(shelf: &mut S, name: &'a str) -> Result<(), FileError<'a>>
    ensures content { IsShort (S.held shelf.old) name.now result }
    ensures fault { RoseAt is_fault result (S.faults shelf.old) (S.faults shelf.new) }
    ensures absent { RoseAt is_absent result (S.misses shelf.old) (S.misses shelf.new) }
    ensures too_long { RoseAt is_too_long result (S.fulls shelf.old) (S.fulls shelf.new) }
    ensures files_stay { S.held shelf.new ≡ S.held shelf.old }
{
    match shelf.reaches(name, TRACE_LIMIT + 1) {
        Ok(false) => Ok(()),
        Ok(true) => Err(FileError::TooLong { name }),
        Err(error) => Err(lack(name, error)),
    }
}

/// The first bytes of the file of a name.
fn read_first<'a, S: Shelf>(
    alloc: Global,
    shelf: &mut S,
    name: &'a str,
    len: u32,
) -> Result<Vec<u8>, FileError<'a>>
    ensures content { GivesFirst (S.held shelf.old) name.now len result }
    ensures bound { IfOk result (λ bytes. length bytes.items ≤ len) }
    ensures fault { RoseAt is_fault result (S.faults shelf.old) (S.faults shelf.new) }
    ensures absent { RoseAt is_absent result (S.misses shelf.old) (S.misses shelf.new) }
    ensures too_long { RoseAt is_too_long result (S.fulls shelf.old) (S.fulls shelf.new) }
    ensures files_stay { S.held shelf.new ≡ S.held shelf.old }
{
    match shelf.read_at(alloc, name, 0, len) {
        Ok(bytes) => Ok(bytes),
        Err(error) => Err(lack(name, error)),
    }
}

/// The front of the trace of a name, up to the end of its head's frame, or all of a trace that is shorter.
pub fn read_front<'a, S: Shelf>(
    alloc: Global,
    shelf: &mut S,
    name: &'a str,
) -> Result<Vec<u8>, FileError<'a>>
    ensures content { GivesFront (S.held shelf.old) name.now result }
    ensures bound { IfOk result (λ front. length front.items ≤ trace_limit) }
    ensures fault { RoseAt is_fault result (S.faults shelf.old) (S.faults shelf.new) }
    ensures absent { RoseAt is_absent result (S.misses shelf.old) (S.misses shelf.new) }
    ensures too_long { RoseAt is_too_long result (S.fulls shelf.old) (S.fulls shelf.new) }
    ensures files_stay { S.held shelf.new ≡ S.held shelf.old }
{
    check_length(shelf, name)?;
    let start = read_first(alloc, shelf, name, HEAD_START)?;
    read_first(alloc, shelf, name, front_length(start.as_slice()))
}

/// The bytes of the certificate of a name.
pub fn read_certificate<'a, S: Shelf>(
    alloc: Global,
    shelf: &mut S,
    name: &'a str,
) -> Result<Vec<u8>, FileError<'a>>
    ensures content { GivesFile (S.held shelf.old) name.now certificate_limit result }
    ensures fault { RoseAt is_fault result (S.faults shelf.old) (S.faults shelf.new) }
    ensures absent { RoseAt is_absent result (S.misses shelf.old) (S.misses shelf.new) }
    ensures too_long { RoseAt is_too_long result (S.fulls shelf.old) (S.fulls shelf.new) }
    ensures files_stay { S.held shelf.new ≡ S.held shelf.old }
{
    read_file(alloc, shelf, name, CERTIFICATE_LIMIT)
}
