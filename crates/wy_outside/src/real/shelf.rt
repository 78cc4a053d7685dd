//! The files of the system, by their paths. It tells nothing of what they hold.
ghost use Rattle.std.specs.Prelude.{◌≡◌, ◌≤◌, take, None, IfOk, IfSome, vec_len};

use crate::count::ShelfCounts;
use crate::shelf::{Shelf, ShelfError};
use std::alloc::Global;
use std::io::{ErrorKind, Read, Seek, SeekFrom};
use std::rt::Files;
use std::{fs, io};

/// The files that the system keeps. A name is a path. A path that leads to no file is absent;
/// whatever else the system refuses, as a folder or a file without permission, is a fault.
#[derive(Drop)]
pub struct FileShelf<R> {
    rt: R,
    counts: ShelfCounts,
}

impl<R: Files> FileShelf<R> {
    pub fn new(rt: R) -> Self
        ensures untold { ⟦<FileShelf<R> as Shelf>⟧.held result ≡ None }
        ensures faults { ⟦<FileShelf<R> as Shelf>⟧.faults result ≡ 0 }
        ensures misses { ⟦<FileShelf<R> as Shelf>⟧.misses result ≡ 0 }
        ensures fulls { ⟦<FileShelf<R> as Shelf>⟧.fulls result ≡ 0 }
        ensures gets { ⟦<FileShelf<R> as Shelf>⟧.gets result ≡ 0 }
    {
        FileShelf {
            rt,
            counts: ShelfCounts::new(),
        }
    }
}

impl<R: Files> Shelf for FileShelf<R> {
    ghost held = { λ _. None };

    ghost faults = { λ s. s.counts.faults };

    ghost misses = { λ s. s.counts.misses };

    ghost fulls = { λ s. s.counts.fulls };

    ghost gets = { λ s. s.counts.gets };

    fn read(&mut self, alloc: Global, name: &str, max: u32) -> Result<Vec<u8>, ShelfError> {
        let answer = read_file(&self.rt, alloc, name, max);
        self.counts.count_read(&answer, max);
        answer
    }

    fn read_at(
        &mut self,
        alloc: Global,
        name: &str,
        from: u32,
        len: u32,
    ) -> Result<Vec<u8>, ShelfError> {
        let answer = read_file_at(&self.rt, alloc, name, from, len);
        self.counts.count_read_at(&answer);
        answer
    }

    fn reaches(&mut self, name: &str, size: u32) -> Result<bool, ShelfError> {
        let answer = file_reaches(&self.rt, name, size);
        self.counts.count_reaches(&answer);
        answer
    }
}

fn read_file<R: Files>(rt: &R, alloc: Global, path: &str, max: u32) -> Result<Vec<u8>, ShelfError>
    ensures { IfOk result (λ bytes. vec_len bytes ≤ max) }
{
    let mut file = fs::open(rt, path).map_err(refusal)?;
    read_prefix(&mut file, alloc, max)
}

/// A pipe has no places, so the system refuses to go to one.
fn read_file_at<R: Files>(
    rt: &R,
    alloc: Global,
    path: &str,
    from: u32,
    len: u32,
) -> Result<Vec<u8>, ShelfError>
    ensures { IfOk result (λ bytes. vec_len bytes ≤ len) }
{
    let mut file = fs::open(rt, path).map_err(refusal)?;
    file.seek(SeekFrom::Start(u64::from(from)))
        .map_err(refusal)?;
    read_prefix(&mut file, alloc, len)
}

fn file_reaches<R: Files>(rt: &R, path: &str, size: u32) -> Result<bool, ShelfError> {
    let metadata = fs::metadata(rt, path).map_err(refusal)?;
    Ok(u64::from(size) <= metadata.len())
}

fn refusal(error: io::Error) -> ShelfError {
    if error.kind() == ErrorKind::NotFound {
        ShelfError::Absent
    } else {
        ShelfError::Failed
    }
}

/// How much of a file is asked for at once.
const PIECE: usize = 8192;

/// The first `max` bytes of what a file has left, or all of them if there are fewer.
pub fn read_prefix<T: Read>(file: &mut T, alloc: Global, max: u32) -> Result<Vec<u8>, ShelfError>
    ensures content { IfSome (T.remaining file.old)
        (λ left. IfOk result (λ bytes. bytes.items ≡ take max left)) }
    ensures bound { IfOk result (λ bytes. vec_len bytes ≤ max) }
{
    let mut bytes = Vec::new(alloc);
    let mut piece = [0u8; PIECE];
    for _ in 0..u64::MAX {
        let room = PIECE.min(max as usize - bytes.len());
        if room == 0 {
            return Ok(bytes);
        }
        match file.read(&mut piece[..room]) {
            Ok(0) => return Ok(bytes),
            Ok(count) => bytes
                .extend_from_slice(&piece[..count])
                .map_err(|_| ShelfError::NoMemory)?,
            Err(error) if error.kind() == ErrorKind::Interrupted => {}
            Err(_) => return Err(ShelfError::Failed),
        }
    }
    Err(ShelfError::Failed)
}
