//! A trace in a file of the system. No clause says what the system keeps, so it tells no bytes; what
//! it hands to a writer is proved at writers whose bytes are known.
ghost use Rattle.std.specs.Prelude.{◌≡◌, ◌≤◌, [], None, OnOk};
ghost use Rattle.std.specs.Bool.{OnTrue};
ghost use Rattle.std.specs.Io.KnownBytes.{Appends};
ghost use Rattle.wy_outside.specs.Counts.{RoseAt};
ghost use Rattle.wy_outside.specs.Sink.{is_failed};
ghost use Rattle.wy_framing.specs.Blocks.{Flows};

use crate::open::{open_for_trace, reach_disk};
use crate::sink::TraceSink;
use std::alloc::{AllocError, Global};
use std::fs::OpenFile;
use std::io::Write;
use std::rt::Files;
use wy_outside::count::one_more;
use wy_outside::real::write_whole;
use wy_outside::sink::SinkError;

/// How many bytes are kept back before they are written.
const BLOCK: usize = 65536;

/// A file, by its path, made or emptied when it is opened, and written in blocks. A regular file that
/// holds something else than a trace fails there, and stays as it is. What is closed was handed to
/// the system and, where the file has a place on a disk, from there to the disk. A file that failed
/// takes nothing more until it is opened again.
#[derive(Drop)]
pub struct FileTraceSink<R: Files + Drop> {
    rt: R,
    alloc: Global,
    file: Option<R::File>,
    block: Vec<u8>,
    faults: u64,
}

impl<R: Files + Drop> FileTraceSink<R> {
    pub fn new(rt: R, alloc: Global) -> Self
        ensures untold { ⟦<FileTraceSink<R> as TraceSink>⟧.bytes result ≡ None }
        ensures faults { ⟦<FileTraceSink<R> as TraceSink>⟧.faults result ≡ 0 }
    {
        FileTraceSink {
            rt,
            alloc,
            file: None,
            block: Vec::new(alloc),
            faults: 0,
        }
    }
}

/// Writes what was kept back, and answers whether the writer took all of it.
pub fn write_block<W: Write>(out: &mut W, block: &mut Vec<u8>) -> bool
    ensures whole { OnTrue result
        (Appends (W.contents out.old) (W.contents out.new) block.old.items) }
    ensures empty { block.new.items ≡ [] }
{
    let done = write_whole(out, block.as_slice());
    block.clear();
    done
}

/// Puts the bytes behind those that are kept back. Where a block has no room for them, what was kept
/// back is written, and so are they where they fill a block themselves.
pub fn put_through<W: Write>(
    out: &mut W,
    block: &mut Vec<u8>,
    piece: &[u8],
) -> Result<(), SinkError>
    ensures { OnOk result (Flows (W.contents out.old) block.old.items
        (W.contents out.new) block.new.items piece.now) }
{
    if piece.len() <= BLOCK.saturating_sub(block.len()) {
        return block
            .extend_from_slice(piece)
            .map_err(|_| SinkError::NoMemory);
    }
    if !write_block(out, block) {
        return Err(SinkError::Failed);
    }
    if piece.len() < BLOCK {
        return block
            .extend_from_slice(piece)
            .map_err(|_| SinkError::NoMemory);
    }
    if write_whole(out, piece) {
        Ok(())
    } else {
        Err(SinkError::Failed)
    }
}

/// The count of faults once a call gave this answer.
fn counted(faults: u64, answer: &Result<(), SinkError>) -> u64
    ensures failed { RoseAt is_failed answer.now faults result }
    ensures kept { faults ≤ result }
{
    match answer {
        Err(SinkError::Failed) => one_more(faults),
        Ok(()) | Err(SinkError::NoMemory) => faults,
    }
}

/// Writes what was kept back, and waits until the disk has the file, where it is one of a disk.
fn close_file<W: Write + OpenFile>(file: &mut W, block: &mut Vec<u8>) -> Result<(), SinkError> {
    if write_block(file, block) && file.flush().is_ok() && reach_disk(file) {
        Ok(())
    } else {
        Err(SinkError::Failed)
    }
}

impl<R: Files + Drop> FileTraceSink<R> {
    fn begin(&mut self, path: &str) -> Result<(), SinkError>
        ensures { self.new.faults ≡ self.old.faults }
    {
        self.block.clear();
        self.file = None;
        self.block = Vec::with_capacity(self.alloc, BLOCK).map_err(|_| SinkError::NoMemory)?;
        self.file = Some(open_for_trace(&self.rt, self.alloc, path)?);
        Ok(())
    }
}

impl<R: Files + Drop> TraceSink for FileTraceSink<R> {
    ghost bytes = { λ _. None };

    ghost faults = { λ s. s.faults };

    fn open(&mut self, name: &str) -> Result<(), SinkError> {
        let answer = self.begin(name);
        self.faults = counted(self.faults, &answer);
        answer
    }

    fn put(&mut self, piece: &[u8]) -> Result<(), SinkError> {
        let answer = match &mut self.file {
            Some(file) => put_through(file, &mut self.block, piece),
            None => Err(SinkError::Failed),
        };
        if let Err(SinkError::Failed) = answer {
            self.file = None;
        }
        self.faults = counted(self.faults, &answer);
        answer
    }

    fn close(&mut self) -> Result<(), SinkError> {
        let answer = match &mut self.file {
            Some(file) => close_file(file, &mut self.block),
            None => Err(SinkError::Failed),
        };
        self.file = None;
        self.faults = counted(self.faults, &answer);
        answer
    }

    fn told(&self) -> Result<Option<Vec<u8>>, AllocError> {
        Ok(None)
    }
}
