//! Files of the system, opened for a trace and brought to the disk. A file that holds something else
//! is left as it is.
ghost use Rattle.std.specs.Prelude.{◌↔◌, IfOk, IfSome, IsTrue, OnOk};
ghost use Rattle.wy_framing.specs.Replaced.{IsReplaceable};

use std::alloc::Global;
use std::fs;
use std::fs::{OpenFile, OpenOptions};
use std::io::{ErrorKind, Read, Seek};
use std::rt::Files;
use wy_event::record::Version;
use wy_outside::real::read_prefix;
use wy_outside::shelf::ShelfError;
use wy_outside::sink::SinkError;
use wy_spelling::{MAGIC_LENGTH, magic_of};

// Nothing, or what begins as a trace of either version does.
fn is_replaceable(held: &[u8]) -> bool
    ensures { IsTrue result ↔ IsReplaceable held.now }
{
    held.is_empty()
        || held.starts_with(&magic_of(Version::One))
        || held.starts_with(&magic_of(Version::Two))
}

/// Whether a trace may take the place of what a file has left.
#[tactic(auto, using(crate::proofs::Replaced::front_tells))]
pub fn may_be_replaced<T: Read>(file: &mut T, alloc: Global) -> Result<bool, SinkError>
    ensures { IfSome (T.remaining file.old)
        (λ held. IfOk result (λ may. IsTrue may ↔ IsReplaceable held)) }
{
    let first = read_prefix(file, alloc, MAGIC_LENGTH).map_err(|error| match error {
        ShelfError::NoMemory => SinkError::NoMemory,
        ShelfError::Absent | ShelfError::Failed => SinkError::Failed,
    })?;
    Ok(is_replaceable(first.as_slice()))
}

/// Empties a file that a trace may take the place of. Another fails, and stays as it is.
pub fn make_room<F: Read + Seek + OpenFile>(file: &mut F, alloc: Global) -> Result<(), SinkError>
    ensures spared { IfSome (F.remaining file.old) (λ held. OnOk result (IsReplaceable held)) }
{
    if !may_be_replaced(file, alloc)? {
        return Err(SinkError::Failed);
    }
    file.set_len(0).map_err(|_| SinkError::Failed)?;
    file.rewind().map_err(|_| SinkError::Failed)
}

// Whether the path leads to something that is no regular file, as a pipe or a device.
fn leads_elsewhere<R: Files>(rt: &R, path: &str) -> bool {
    fs::metadata(rt, path).is_ok_and(|found| !found.is_file())
}

/// The file that a trace is written to. A regular file is made where there is none; one that is there
/// is read first, and emptied where it holds nothing or begins as a trace does. A pipe or a device is
/// opened to be written alone, so that a pipe waits for its reader. What the path leads to may change
/// in between, so the file that was opened decides which of them it is; as a regular file that can't
/// be read it fails, with nothing written.
pub fn open_for_trace<R: Files>(rt: &R, alloc: Global, path: &str) -> Result<R::File, SinkError> {
    let is_regular = !leads_elsewhere(rt, path);
    let mut file = OpenOptions::new()
        .write(true)
        .read(is_regular)
        .create(is_regular)
        .open(rt, path)
        .map_err(|_| SinkError::Failed)?;
    let found = file.metadata().map_err(|_| SinkError::Failed)?;
    if found.is_file() {
        make_room(&mut file, alloc)?;
    }
    Ok(file)
}

/// Waits until the disk has the file, and answers whether it has. Of a pipe or a device that can't be
/// asked for that, nothing stays behind in the system.
pub fn reach_disk<F: OpenFile>(file: &F) -> bool {
    match file.sync_all() {
        Ok(()) => true,
        Err(error) => match error.kind() {
            ErrorKind::InvalidInput | ErrorKind::Unsupported => {
                file.metadata().is_ok_and(|found| !found.is_file())
            }
            _ => false,
        },
    }
}
