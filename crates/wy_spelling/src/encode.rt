//! The frames of a trace, each spelled by itself: a letter, the length of what follows in four bytes, and this.

ghost use Rattle.std.specs.Prelude.{◌≡◌, ◌<◌, ◌≤◌, ◌^◌, ◌++◌, ◌∷◌, [], ℕ, List, length, IfOk, OnOk};
ghost use Rattle.wy_event.specs.Record.{recorded};
ghost use Rattle.wy_kernel.specs.View.{present};
ghost use Rattle.wy_kernel.specs.Limits.{trace_limit};
ghost use Rattle.wy_spelling.specs.Spelling.{FitsOne, kind_number, optional, count_bytes, origin_bytes, coverage_frame, coverage_payload, end_frame, event_frame, event_payload, frame, head_frame, head_payload, magic, number, opening, seal_frame, tail_frames, tail_payload};

use crate::write::{
    put_bytes, put_content, put_each_cover, put_number, put_slot, put_tagged, put_uses,
};
use std::alloc::{AllocError, Global};
use wy_event::record::{Coverage, Event, Head, Kind, Tail, Version};

const MAGIC_ONE: [u8; 8] = *b"WHYTRAC1";

const MAGIC_TWO: [u8; 8] = *b"WHYTRAC2";

/// How many bytes name the format.
pub const MAGIC_LENGTH: u32 = 8;

/// The version that is written.
const WRITTEN: Version = Version::Two;

/// The first bytes of a trace of a version.
pub fn magic_of(version: Version) -> [u8; 8]
    ensures { result ≡ magic version }
{
    match version {
        Version::One => MAGIC_ONE,
        Version::Two => MAGIC_TWO,
    }
}

/// The bytes of a letter and a length before what a frame holds.
const OPENING_LENGTH: usize = 5;

const END_LENGTH: u32 = 21;

const SEAL_LENGTH: u32 = 32;

const SEAL_FRAME_LENGTH: usize = 37;

/// Room for the frames of most events.
const MOST_EVENTS: usize = 96;

// A frame whose length isn't known yet.
fn opened(alloc: Global, letter: u8, room: usize) -> Result<Vec<u8>, AllocError>
    ensures { IfOk result (λ v. v.items ≡ letter ∷ number 0) }
{
    let mut out = Vec::with_capacity(alloc, room)?;
    put_tagged(&mut out, letter, 0)?;
    Ok(out)
}

// Puts the length of what stands behind it into an opened frame.
fn close(out: &mut Vec<u8>)
    requires long { 5 ≤ length out.old.items }
    requires short { length out.old.items < 2 ^ 32 }
    ensures { (letter : ℕ) (payload : List ℕ) → out.old.items ≡ letter ∷ number 0 ++ payload
        → out.new.items ≡ frame letter payload }
{
    let length = ((out.len() - OPENING_LENGTH) as u32).to_be_bytes();
    out[1] = length[0];
    out[2] = length[1];
    out[3] = length[2];
    out[4] = length[3];
}

// The number of a kind.
fn number_of(kind: Kind) -> u8
    ensures { result ≡ kind_number kind }
{
    kind as u8
}

#[tactic(auto, using(crate::proofs::Numbers::optional_present))]
fn put_optional(out: &mut Vec<u8>, n: u32) -> Result<(), AllocError>
    ensures { OnOk result (out.new.items ≡ out.old.items ++ optional (present n)) }
{
    put_number(out, n)
}

#[tactic(auto, unfolding(crate::specs::Spelling::origin_bytes, wy_event::specs::Record::recorded))]
fn put_origin(out: &mut Vec<u8>, event: &Event) -> Result<(), AllocError>
    ensures { OnOk result (out.new.items ≡ out.old.items ++ origin_bytes (recorded event.now)) }
{
    out.push(number_of(event.kind))?;
    put_number(out, event.site)?;
    put_optional(out, event.frame)?;
    put_optional(out, event.control)?;
    put_optional(out, event.entity)
}

#[tactic(auto, using(crate::proofs::Lengths::content_is_short, crate::proofs::Lengths::uses_are_short), unfolding(crate::specs::Spelling::event_payload, wy_event::specs::Record::recorded))]
fn put_event(out: &mut Vec<u8>, version: Version, event: &Event) -> Result<(), AllocError>
    requires { length (event_payload version (recorded event.now)) < 2 ^ 32 }
    ensures { OnOk result (out.new.items
        ≡ out.old.items ++ event_payload version (recorded event.now)) }
{
    put_origin(out, event)?;
    put_slot(out, event.slot)?;
    put_content(
        out,
        version,
        event.kind,
        event.value,
        event.units.as_slice(),
    )?;
    put_uses(out, event.uses.as_slice())
}

#[tactic(auto, using(crate::proofs::Lengths::payload_is_short), unfolding(crate::specs::Spelling::event_frame))]
fn encode(alloc: Global, version: Version, event: &Event) -> Result<Vec<u8>, AllocError>
    requires { length (event_frame version (recorded event.now)) ≤ trace_limit }
    ensures { IfOk result (λ v. v.items ≡ event_frame version (recorded event.now)) }
{
    let mut out = opened(alloc, b'E', MOST_EVENTS)?;
    put_event(&mut out, version, event)?;
    close(&mut out);
    Ok(out)
}

/// The frame of an event.
pub fn encode_event(alloc: Global, event: &Event) -> Result<Vec<u8>, AllocError>
    requires { length (event_frame Version.Two (recorded event.now)) ≤ trace_limit }
    ensures { IfOk result (λ v. v.items ≡ event_frame Version.Two (recorded event.now)) }
{
    encode(alloc, WRITTEN, event)
}

/// The frame of an event in version 1, which has no arm but 0 and 1.
pub fn encode_event_v1(alloc: Global, event: &Event) -> Result<Vec<u8>, AllocError>
    requires arm { FitsOne event.now.value }
    requires short { length (event_frame Version.One (recorded event.now)) ≤ trace_limit }
    ensures { IfOk result (λ v. v.items ≡ event_frame Version.One (recorded event.now)) }
{
    encode(alloc, Version::One, event)
}

#[tactic(auto, unfolding(crate::specs::Spelling::head_payload))]
fn put_head(out: &mut Vec<u8>, head: &Head) -> Result<(), AllocError>
    requires { length (head_payload head.now) < 2 ^ 32 }
    ensures { OnOk result (out.new.items ≡ out.old.items ++ head_payload head.now) }
{
    put_number(out, head.steps)?;
    put_bytes(out, head.input.as_slice())?;
    put_bytes(out, head.source.as_slice())
}

/// The bytes that name the format, and the frame of a head.
#[tactic(auto, using(crate::proofs::Lengths::head_is_short), unfolding(crate::specs::Spelling::opening, crate::specs::Spelling::head_frame))]
pub fn encode_head(alloc: Global, head: &Head) -> Result<Vec<u8>, AllocError>
    requires { length (opening Version.Two head.now) ≤ trace_limit }
    ensures { IfOk result (λ v. v.items ≡ opening Version.Two head.now) }
{
    let room = head.input.as_slice().len() + head.source.as_slice().len();
    let mut frame = opened(alloc, b'H', room)?;
    put_head(&mut frame, head)?;
    close(&mut frame);
    let mut out = Vec::with_capacity(alloc, room)?;
    out.extend_from_slice(&magic_of(WRITTEN))?;
    out.extend_from_slice(&frame)?;
    Ok(out)
}

#[tactic(auto, using(crate::proofs::Lengths::covers_are_few), unfolding(crate::specs::Spelling::coverage_payload))]
fn put_coverage(out: &mut Vec<u8>, coverage: &Coverage) -> Result<(), AllocError>
    requires { length (coverage_payload coverage.now) < 2 ^ 32 }
    ensures { OnOk result (out.new.items ≡ out.old.items ++ coverage_payload coverage.now) }
{
    put_number(out, coverage.statements.as_slice().len() as u32)?;
    put_each_cover(out, coverage.statements.as_slice())
}

#[tactic(auto, unfolding(crate::specs::Spelling::count_bytes))]
fn put_counts(out: &mut Vec<u8>, tail: &Tail) -> Result<(), AllocError>
    ensures { OnOk result (out.new.items ≡ out.old.items ++ count_bytes tail.now) }
{
    put_number(out, tail.steps)?;
    put_number(out, tail.events)?;
    put_number(out, tail.uses)?;
    put_number(out, tail.output)
}

#[tactic(auto, unfolding(crate::specs::Spelling::tail_payload))]
fn put_ending(out: &mut Vec<u8>, tail: &Tail) -> Result<(), AllocError>
    ensures { OnOk result (out.new.items ≡ out.old.items ++ tail_payload tail.now) }
{
    out.push(tail.stop)?;
    put_number(out, tail.last)?;
    put_counts(out, tail)
}

// The frame of how a run ended, whose length is known.
fn put_end(out: &mut Vec<u8>, tail: &Tail) -> Result<(), AllocError>
    ensures { OnOk result (out.new.items ≡ out.old.items ++ end_frame tail.now) }
{
    put_tagged(out, b'T', END_LENGTH)?;
    put_ending(out, tail)
}

/// The frame of the coverage, and that of how the run ended.
#[tactic(auto, using(crate::proofs::Lengths::coverage_is_short), unfolding(crate::specs::Spelling::tail_frames, crate::specs::Spelling::coverage_frame))]
pub fn encode_tail(alloc: Global, tail: &Tail) -> Result<Vec<u8>, AllocError>
    requires { length (tail_frames tail.now) ≤ trace_limit }
    ensures { IfOk result (λ v. v.items ≡ tail_frames tail.now) }
{
    let mut out = opened(alloc, b'C', MOST_EVENTS)?;
    put_coverage(&mut out, &tail.coverage)?;
    close(&mut out);
    put_end(&mut out, tail)?;
    Ok(out)
}

/// The frame of a seal.
#[tactic(auto, unfolding(crate::specs::Spelling::seal_frame))]
pub fn encode_seal(alloc: Global, seal: &[u8; 32]) -> Result<Vec<u8>, AllocError>
    ensures { IfOk result (λ v. v.items ≡ seal_frame seal.now) }
{
    let mut out = Vec::with_capacity(alloc, SEAL_FRAME_LENGTH)?;
    put_tagged(&mut out, b'S', SEAL_LENGTH)?;
    out.extend_from_slice(seal)?;
    Ok(out)
}
