//! Copies of parts of bytes.
ghost use Rattle.std.specs.Prelude.{◌≡◌, ◌≤◌, take, drop, IfOk, vec_len};

use std::alloc::{AllocError, Global};

/// The first `max` bytes, or all of them if there are fewer.
pub fn first_bytes(alloc: Global, bytes: &[u8], max: u32) -> Result<Vec<u8>, AllocError>
    ensures value { IfOk result (λ first. first.items ≡ take max bytes.now) }
    ensures bound { IfOk result (λ first. vec_len first ≤ max) }
{
    let len = bytes.len().min(max as usize);
    Vec::from_slice(alloc, &bytes[..len])
}

/// The bytes from a place on: `len` of them, or as many as there are.
pub fn bytes_from(alloc: Global, bytes: &[u8], from: u32, len: u32) -> Result<Vec<u8>, AllocError>
    ensures value { IfOk result (λ part. part.items ≡ take len (drop from bytes.now)) }
    ensures bound { IfOk result (λ part. vec_len part ≤ len) }
{
    let from = bytes.len().min(from as usize);
    first_bytes(alloc, &bytes[from..], len)
}
