//! The head of a trace: the magic, and the frame behind it.

ghost use Rattle.std.specs.Prelude.{◌≡◌, ◌≤◌, ℕ, drop, length, Some};
ghost use Rattle.wy_kernel.specs.Limits.{trace_limit};
ghost use Rattle.wy_frames.specs.Heads.{GivesDue, agreeing, head_in, head_of, magic_length, version_of as version_in};
ghost use Rattle.wy_frames.specs.Frames.{frame_of};
ghost use Rattle.wy_frames.specs.Pieces.{frame_in};

use crate::error::TraceError;
use crate::split::{Piece, split};
use crate::whole::whole_head;
use std::alloc::Global;
use wy_event::record::{Head, Version};
use wy_payload::fault::{DamageRule, Fault};
use wy_spelling::{MAGIC_LENGTH, magic_of};

// How many bytes at the front agree; as deep as there are.
#[tactic(auto, unfolding(crate::specs::Heads::agreeing))]
fn agreeing_bytes(wanted: &[u8], bytes: &[u8]) -> usize
    ensures agreeing { result ≡ agreeing wanted.now bytes.now }
    ensures bound { result ≤ length wanted.now }
    ensures within { result ≤ length bytes.now }
{
    match wanted {
        [x, xs @ ..] => match bytes {
            [y, ys @ ..] if *x == *y => agreeing_bytes(xs, ys) + 1,
            _ => 0,
        },
        [] => 0,
    }
}

// The version whose magic the bytes begin with, and else the second.
#[tactic(auto, unfolding(crate::specs::Heads::version_of))]
fn version_of(bytes: &[u8]) -> Version
    ensures { result ≡ version_in bytes.now }
{
    if agreeing_bytes(&magic_of(Version::One), bytes) == MAGIC_LENGTH as usize {
        Version::One
    } else {
        Version::Two
    }
}

fn in_frame(
    alloc: Global,
    version: Version,
    piece: &Piece<'_>,
) -> Result<(Head, u32, Version), TraceError>
    requires { length piece.now.whole.now ≤ trace_limit }
    ensures { (size : ℕ) → GivesDue result (head_in version size (Some (frame_in piece.now))) }
{
    if piece.letter != b'H' {
        return Err(TraceError::Damaged {
            byte: MAGIC_LENGTH,
            rule: DamageRule::FrameKind,
        });
    }
    match whole_head(alloc, piece.payload) {
        Ok(head) => Ok((head, MAGIC_LENGTH + piece.whole.len() as u32, version)),
        Err(Fault::Broken(rule)) => Err(TraceError::Damaged {
            byte: MAGIC_LENGTH,
            rule,
        }),
        Err(Fault::NoMemory) => Err(TraceError::NoMemory),
    }
}

fn behind(
    alloc: Global,
    version: Version,
    bytes: &[u8],
    rest: &[u8],
) -> Result<(Head, u32, Version), TraceError>
    requires whole { rest.now ≡ drop magic_length bytes.now }
    requires short { length bytes.now ≤ trace_limit }
    ensures { GivesDue result (head_in version (length bytes.now) (frame_of rest.now)) }
{
    match split(rest) {
        Some(piece) => in_frame(alloc, version, &piece),
        None => Err(TraceError::Cut {
            byte: bytes.len() as u32,
        }),
    }
}

/// The head that a trace begins with, the place behind its frame, and the version of the trace.
#[tactic(auto, unfolding(crate::specs::Heads::head_of))]
pub fn read_head(alloc: Global, bytes: &[u8]) -> Result<(Head, u32, Version), TraceError>
    requires { length bytes.now ≤ trace_limit }
    ensures { GivesDue result (head_of bytes.now) }
{
    let version = version_of(bytes);
    let magic = magic_of(version);
    let count = agreeing_bytes(&magic, bytes);
    if count == magic.len() {
        let (_, rest) = bytes.split_at(magic.len());
        return behind(alloc, version, bytes, rest);
    }
    let byte = count as u32;
    if count == bytes.len() {
        return Err(TraceError::Cut { byte });
    }
    Err(TraceError::Damaged {
        byte,
        rule: DamageRule::Magic,
    })
}
