//! The trace of the first program in version 1, which is migrated.

use crate::call::{NOTHING, call};
use crate::frames::{has_truth, is_short};
use crate::paged::frame_at;
use crate::programs::PROGRAMS;
use sha2::{Digest, Sha256};
use std::alloc::{AllocError, Global};
use std::test::Fail;
use wy_event::record::{Event, Version};
use wy_frame_reading::read_event;
use wy_frames::{encode_event_v1, encode_seal};

/// The one Test of the first program.
const TEST: u32 = 6;

const SEAL_FRAME: usize = 37;

/// The frame of a Test in version 1.
fn frame_of(alloc: Global, test: &Event) -> Result<Vec<u8>, AllocError> {
    if is_short(test) && has_truth(test) {
        encode_event_v1(alloc, test)
    } else {
        Ok(Vec::new(alloc))
    }
}

/// A trace of version 2 with one Test, as version 1 spells it.
fn older(alloc: Global, trace: &[u8]) -> Result<Vec<u8>, AllocError> {
    let mut out = Vec::from_slice(alloc, b"WHYTRAC1")?;
    let at = frame_at(trace, TEST + 1).min(trace.len());
    let (front, behind) = trace.split_at(at);
    if let Some((test, length)) = read_event(alloc, behind, TEST, Version::Two)? {
        out.extend_from_slice(front.get(8..).unwrap_or(&[]))?;
        out.extend_from_slice(frame_of(alloc, &test)?.as_slice())?;
        let end = behind.len().saturating_sub(SEAL_FRAME);
        out.extend_from_slice(behind.get(length as usize..end).unwrap_or(&[]))?;
    }
    let seal = Sha256::digest(out.as_slice());
    out.extend_from_slice(encode_seal(alloc, &seal)?.as_slice())?;
    Ok(out)
}

#[test]
fn a_trace_of_version_1_is_migrated(rt: HostRuntime) -> Result<(), Fail> {
    let alloc = rt.alloc();
    let program = PROGRAMS[0];
    let trace = call(
        alloc,
        "record Main.java -i in -o new",
        program,
        b"",
        NOTHING,
    )?
    .first;
    let old = older(alloc, trace.as_slice())?;
    assert_eq!(rt; old.len().saturating_add(3), trace.len());
    let left = call(
        alloc,
        "migrate old -o new",
        program,
        old.as_slice(),
        NOTHING,
    )?;
    assert_eq!(rt; left.status, 0);
    assert!(rt; left.written.as_slice() == b"migrate: 10 events\n".as_slice());
    assert!(rt;
        left.first.as_slice() == trace.as_slice(),
        "what is recorded"
    );
    assert!(rt; left.second.as_slice() == trace.as_slice(), "in both");
    Ok(())
}
