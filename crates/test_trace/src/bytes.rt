//! The trace of a run of no program's events: a step budget of 5, the input `hi`, the source `a b`, and 3 steps.

ghost use Rattle.std.specs.Prelude.{◌≤◌, IfSome, length};
ghost use Rattle.wy_kernel.specs.Limits.{trace_limit};
ghost use Rattle.wy_event.specs.declared.record.Version.{Version};
ghost use Rattle.wy_spelling.specs.Spelling.{opening};

use std::alloc::{AllocError, Global};
use std::test::Fail;
use wy_event::record::{Head, Trace, Version};
use wy_frames::{DamageRule, Decoder, TraceError, decode, read_head};
use wy_kernel::program::Program;
use wy_kernel::types::NONE;

static TRACE: [u8; 102] = [
    0x57, 0x48, 0x59, 0x54, 0x52, 0x41, 0x43, 0x31, 0x48, 0x00, 0x00, 0x00, 0x11, 0x00, 0x00, 0x00,
    0x05, 0x00, 0x00, 0x00, 0x02, 0x68, 0x69, 0x00, 0x00, 0x00, 0x03, 0x61, 0x20, 0x62, 0x43, 0x00,
    0x00, 0x00, 0x04, 0x00, 0x00, 0x00, 0x00, 0x54, 0x00, 0x00, 0x00, 0x15, 0x00, 0xff, 0xff, 0xff,
    0xff, 0x00, 0x00, 0x00, 0x03, 0x00, 0x00, 0x00, 0x00, 0x00, 0x00, 0x00, 0x00, 0x00, 0x00, 0x00,
    0x00, 0x53, 0x00, 0x00, 0x00, 0x20, 0x22, 0x82, 0x25, 0x98, 0x43, 0xce, 0x4b, 0xa5, 0xe4, 0xee,
    0x06, 0xab, 0x58, 0xe4, 0x30, 0xa8, 0x47, 0x74, 0x54, 0xcf, 0x3c, 0xb9, 0xf9, 0xfd, 0xed, 0x32,
    0x28, 0x14, 0xe6, 0xee, 0x28, 0x8a,
];

/// The same in version 2.
static TRACE_TWO: [u8; 102] = [
    0x57, 0x48, 0x59, 0x54, 0x52, 0x41, 0x43, 0x32, 0x48, 0x00, 0x00, 0x00, 0x11, 0x00, 0x00, 0x00,
    0x05, 0x00, 0x00, 0x00, 0x02, 0x68, 0x69, 0x00, 0x00, 0x00, 0x03, 0x61, 0x20, 0x62, 0x43, 0x00,
    0x00, 0x00, 0x04, 0x00, 0x00, 0x00, 0x00, 0x54, 0x00, 0x00, 0x00, 0x15, 0x00, 0xff, 0xff, 0xff,
    0xff, 0x00, 0x00, 0x00, 0x03, 0x00, 0x00, 0x00, 0x00, 0x00, 0x00, 0x00, 0x00, 0x00, 0x00, 0x00,
    0x00, 0x53, 0x00, 0x00, 0x00, 0x20, 0xb5, 0x19, 0x00, 0xcb, 0x7e, 0x9b, 0x12, 0xc2, 0xdd, 0xff,
    0xe8, 0x31, 0xf8, 0xf0, 0xdb, 0x26, 0x78, 0xec, 0x4c, 0x6b, 0x2a, 0xc6, 0x48, 0x46, 0xdb, 0x4f,
    0x76, 0xb4, 0xff, 0x41, 0x1b, 0xf1,
];

fn program(alloc: Global) -> Program {
    Program {
        classes: Vec::new(alloc),
        methods: Vec::new(alloc),
        fields: Vec::new(alloc),
        bodies: Vec::new(alloc),
        init_bodies: Vec::new(alloc),
        fixed_texts: Vec::new(alloc),
        lines: Vec::new(alloc),
        statements: 0,
        main: 0,
    }
}

fn is_the_run(trace: &Trace) -> bool {
    trace.head.steps == 5
        && trace.head.input.as_slice() == b"hi".as_slice()
        && trace.head.source.as_slice() == b"a b".as_slice()
        && trace.events.as_slice().is_empty()
        && trace.tail.coverage.statements.as_slice().is_empty()
        && trace.tail.stop == 0
        && trace.tail.last == NONE
        && trace.tail.steps == 3
        && trace.tail.events == 0
        && trace.tail.uses == 0
        && trace.tail.output == 0
}

#[test]
fn a_trace_is_read(rt: HostRuntime) -> Result<(), Fail> {
    let alloc = rt.alloc();
    let program = program(alloc);
    for bytes in [TRACE.as_slice(), TRACE_TWO.as_slice()] {
        let read = decode(alloc, bytes, &program);
        assert!(rt; matches!(&read, Ok(trace) if is_the_run(trace)));
    }
    Ok(())
}

#[test]
fn a_head_has_the_version_of_its_bytes(rt: HostRuntime) -> Result<(), Fail> {
    let alloc = rt.alloc();
    let (_, _, first) = read_head(alloc, TRACE.as_slice())?;
    let (_, _, second) = read_head(alloc, TRACE_TWO.as_slice())?;
    assert!(rt; first == Version::One && second == Version::Two);
    Ok(())
}

/// The head, if its input and its source are short, so that the trace of either version has room for it.
#[tactic(auto, using(crate::proofs::Opening::opening_is_short))]
pub fn short_head(head: Head) -> Option<Head>
    ensures { IfSome result (λ head.
        (version : Version) → length (opening version head) ≤ trace_limit) }
{
    if head.input.as_slice().len() > 100 || head.source.as_slice().len() > 100 {
        return None;
    }
    Some(head)
}

#[test]
fn a_trace_is_read_byte_by_byte(rt: HostRuntime) -> Result<(), Fail> {
    let alloc = rt.alloc();
    let program = program(alloc);
    let (head, end, version) = read_head(alloc, TRACE.as_slice())?;
    let Some(head) = short_head(head) else {
        return Err(Fail::new("the head is long"));
    };
    let mut decoder = Decoder::new(alloc, head, version, &program);
    for (n, byte) in TRACE.iter().enumerate() {
        if n >= end as usize {
            assert!(rt; decoder.feed(&[*byte]) == Ok(()), "byte {n}");
        }
    }
    let read = decoder.finish();
    assert!(rt; matches!(&read, Ok(trace) if is_the_run(trace)));
    Ok(())
}

#[test]
fn each_part_of_a_trace_is_cut(rt: HostRuntime) -> Result<(), Fail> {
    let alloc = rt.alloc();
    let program = program(alloc);
    for bytes in [TRACE.as_slice(), TRACE_TWO.as_slice()] {
        for n in 0..bytes.len() {
            assert!(rt; n < 1000);
            let read = decode(alloc, &bytes[..n], &program);
            assert!(rt;
                read.err() == Some(TraceError::Cut { byte: n as u32 }),
                "{n} bytes"
            );
        }
    }
    Ok(())
}

/// A byte, what stands there instead, and why that is no trace.
static CHANGES: [(usize, u8, TraceError); 11] = [
    (
        0,
        b'w',
        TraceError::Damaged {
            byte: 0,
            rule: DamageRule::Magic,
        },
    ),
    (
        7,
        b'3',
        TraceError::Damaged {
            byte: 7,
            rule: DamageRule::Magic,
        },
    ),
    (7, b'2', TraceError::BadSeal),
    (
        8,
        b'E',
        TraceError::Damaged {
            byte: 8,
            rule: DamageRule::FrameKind,
        },
    ),
    (
        12,
        18,
        TraceError::Damaged {
            byte: 8,
            rule: DamageRule::Length,
        },
    ),
    (
        16,
        0,
        TraceError::Damaged {
            byte: 8,
            rule: DamageRule::Range,
        },
    ),
    (
        30,
        b'D',
        TraceError::Damaged {
            byte: 30,
            rule: DamageRule::FrameKind,
        },
    ),
    (
        38,
        1,
        TraceError::Damaged {
            byte: 30,
            rule: DamageRule::Count,
        },
    ),
    (
        52,
        6,
        TraceError::Damaged {
            byte: 39,
            rule: DamageRule::Range,
        },
    ),
    (
        56,
        1,
        TraceError::Damaged {
            byte: 39,
            rule: DamageRule::Count,
        },
    ),
    (101, 0x8b, TraceError::BadSeal),
];

fn changed(alloc: Global, at: usize, byte: u8) -> Result<Vec<u8>, AllocError> {
    let mut bytes = TRACE.as_slice().to_vec(alloc)?;
    if let Some(there) = bytes.get_mut(at) {
        *there = byte;
    }
    Ok(bytes)
}

#[test]
fn a_changed_byte_is_refused_by_its_rule(rt: HostRuntime) -> Result<(), Fail> {
    let alloc = rt.alloc();
    let program = program(alloc);
    for &(at, byte, error) in &CHANGES {
        let bytes = changed(alloc, at, byte)?;
        assert!(rt; bytes.len() < 1000);
        let read = decode(alloc, bytes.as_slice(), &program);
        assert!(rt; read.err() == Some(error), "{byte} at {at}");
    }
    Ok(())
}

#[test]
fn nothing_stands_behind_a_seal(rt: HostRuntime) -> Result<(), Fail> {
    let alloc = rt.alloc();
    let program = program(alloc);
    let mut bytes = TRACE.as_slice().to_vec(alloc)?;
    bytes.push(b'S')?;
    assert!(rt; bytes.len() < 1000);
    let read = decode(alloc, bytes.as_slice(), &program);
    let after = TraceError::Damaged {
        byte: 102,
        rule: DamageRule::After,
    };
    assert!(rt; read.err() == Some(after));
    Ok(())
}
