//! What files in memory answer to a shelf's calls.
ghost use Rattle.std.specs.Prelude.{◌≡◌, ◌≤◌, Some, false, IfOk, IfSome, vec_len};
ghost use Rattle.std.specs.Option.{option_copied};
ghost use Rattle.wy_outside.specs.Failing.{FailsExactly};
ghost use Rattle.wy_outside.specs.Shelf.{files_of, is_failed, ReadsFile, ReadsPart, Reaches};

use crate::piece::{bytes_from, first_bytes};
use crate::shelf::ShelfError;
use std::alloc::Global;

/// The first `max` bytes of a file, or all of them if there are fewer.
pub fn read_held(
    alloc: Global,
    files: &[(String, Vec<u8>)],
    name: &str,
    max: u32,
) -> Result<Vec<u8>, ShelfError>
    ensures content { ReadsFile (Some (files_of files.now)) name.now max result }
    ensures bound { IfOk result (λ bytes. vec_len bytes ≤ max) }
    ensures unfailed { FailsExactly is_failed false result }
{
    match file_named(files, name) {
        Some(content) => first_bytes(alloc, content, max).map_err(|_| ShelfError::NoMemory),
        None => Err(ShelfError::Absent),
    }
}

/// The bytes of a file from a place on: `len` of them, or as many as there are.
pub fn read_held_at(
    alloc: Global,
    files: &[(String, Vec<u8>)],
    name: &str,
    from: u32,
    len: u32,
) -> Result<Vec<u8>, ShelfError>
    ensures content { ReadsPart (Some (files_of files.now)) name.now from len result }
    ensures bound { IfOk result (λ bytes. vec_len bytes ≤ len) }
    ensures unfailed { FailsExactly is_failed false result }
{
    match file_named(files, name) {
        Some(content) => bytes_from(alloc, content, from, len).map_err(|_| ShelfError::NoMemory),
        None => Err(ShelfError::Absent),
    }
}

/// Whether a file has at least `size` bytes.
pub fn held_reaches(files: &[(String, Vec<u8>)], name: &str, size: u32) -> Result<bool, ShelfError>
    ensures content { Reaches (Some (files_of files.now)) name.now size result }
    ensures unfailed { FailsExactly is_failed false result }
{
    match file_named(files, name) {
        Some(content) => Ok(size as usize <= content.len()),
        None => Err(ShelfError::Absent),
    }
}

/// The content of the first file of a name.
pub fn file_named<'a>(files: &'a [(String, Vec<u8>)], name: &str) -> Option<&'a [u8]>
    ensures { option_copied result ≡ files_of files.now name.now }
{
    for (file_name, content) in files {
        if file_name.as_str() == name {
            return Some(content.as_slice());
        }
    }
    None
}
