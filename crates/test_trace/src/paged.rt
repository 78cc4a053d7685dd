//! Traces that stay on their shelf: what is told where one changes between two reads of it, and how often a block is read.

ghost use Rattle.std.specs.Prelude.{◌≡◌, ◌<◌, IfOk, None};

use crate::bytes::short_head;
use crate::call::{Left, NOTHING, call, call_over};
use crate::programs::{LONG, PROGRAMS, Program};
use std::alloc::{AllocError, Global};
use std::marker::Brand;
use std::process::Abort;
use std::sync::ledger::{Blank, Ledger};
use std::test::Fail;
use wy_frames::read_head;
use wy_outside::memory::{MemoryShelf, SwapShelf};
use wy_outside::shelf::Shelf;
use wy_page::{PagedView, Pages};
use wy_program::program_of_source;
use wy_view::{EventView, Steps};

/// How many bytes are read of a trace at a time while it is opened.
const PIECE: usize = 1_048_576;

const NEVER: u32 = 4_294_967_295;

/// A session that looks at an event of the last block, and at one of the first.
const LINES: &[u8] = b"go 200001\ngo 4\n";

fn byte_at(bytes: &[u8], at: usize) -> u8 {
    match bytes.get(at) {
        Some(byte) => *byte,
        None => 0,
    }
}

/// Where the frame begins before which there are so many.
pub fn frame_at(bytes: &[u8], before: u32) -> usize {
    let mut at = 8_usize;
    for _ in 0..before {
        let length = u32::from_be_bytes([
            byte_at(bytes, at.saturating_add(1)),
            byte_at(bytes, at.saturating_add(2)),
            byte_at(bytes, at.saturating_add(3)),
            byte_at(bytes, at.saturating_add(4)),
        ]);
        at = at.saturating_add(5).saturating_add(length as usize);
    }
    at
}

/// A trace with another byte behind the start of event 4. Where that sets a local to an int, it is another int.
pub fn another(alloc: Global, trace: &[u8]) -> Result<Vec<u8>, AllocError> {
    let mut other = Vec::from_slice(alloc, trace)?;
    let event = frame_at(trace, 5);
    if let Some(last) = other.get_mut(event.saturating_add(35)) {
        *last = last.wrapping_add(1);
    }
    Ok(other)
}

/// The trace of a program whose event 4 sets a local to an int, and the same with another int there.
fn two_traces(alloc: Global, program: Program) -> Result<(Vec<u8>, Vec<u8>), AllocError> {
    let left = call(alloc, "record Main.java -o new", program, b"", NOTHING)?;
    let trace = left.first;
    let other = another(alloc, trace.as_slice())?;
    Ok((trace, other))
}

/// A shelf whose one file, `t`, is the first from the start, and the second from a call on.
fn shelf_of(alloc: Global, first: &[u8], second: &[u8], swap: u32) -> Result<SwapShelf, AllocError>
    ensures { IfOk result (λ shelf. ⟦<SwapShelf as Shelf>⟧.held shelf ≡ None) }
{
    let before = (
        String::from_str(alloc, "t")?,
        Vec::from_slice(alloc, first)?,
    );
    let after = (
        String::from_str(alloc, "t")?,
        Vec::from_slice(alloc, second)?,
    );
    Ok(SwapShelf::new(vec![in alloc; before]?, after, swap))
}

/// What the command of a line leaves over two traces, of which the second is there from a call on.
fn told(
    alloc: Global,
    line: &str,
    traces: &(Vec<u8>, Vec<u8>),
    swap: u32,
) -> Result<Left, AllocError> {
    let mut shelf = shelf_of(alloc, traces.0.as_slice(), traces.1.as_slice(), swap)?;
    call_over(alloc, line, &mut shelf, LINES, NOTHING)
}

/// What it leaves over a trace, where a call of the shelf fails.
fn failed(alloc: Global, line: &str, trace: &[u8], fails: u32) -> Result<Left, AllocError> {
    let file = (
        String::from_str(alloc, "t")?,
        Vec::from_slice(alloc, trace)?,
    );
    let mut shelf = MemoryShelf::new(vec![in alloc; file]?, Vec::from_slice(alloc, &[fails])?);
    call_over(alloc, line, &mut shelf, LINES, NOTHING)
}

fn is_answer(left: &Left, answer: (u8, &str)) -> bool {
    left.status == answer.0 && left.written.as_slice() == answer.1.as_bytes()
}

const WHY_PRINT: &str = "#2 line 2 call Main.main
#4 line 3 set x = 2 *
#6 line 5 test true
#7 line 6 set y = 5 *
#8 line 8 print 5 *
";

/// A command over a trace of one block, the call from which on the trace is another, and the answer. Four calls open it, and the fifth
/// reads its block.
static CHANGES: [(&str, u32, u8, &str); 8] = [
    ("why t p0", 1, 5, "trace: BadSeal\n"),
    ("why t p0", 4, 5, "trace: BadSeal\n"),
    ("why t p0", 5, 5, "trace: Changed block 0\n"),
    ("why t p0", NEVER, 0, WHY_PRINT),
    ("output t", 4, 5, "trace: BadSeal\n"),
    ("output t", 5, 5, "trace: Changed block 0\n"),
    ("output t", 6, 0, "5\n-- finished\n"),
    ("output t", NEVER, 0, "5\n-- finished\n"),
];

#[test]
fn a_block_that_changed_since_the_trace_was_opened_is_named(rt: HostRuntime) -> Result<(), Fail> {
    let alloc = rt.alloc();
    let traces = two_traces(alloc, PROGRAMS[0])?;
    for &(line, swap, status, text) in &CHANGES {
        let left = told(alloc, line, &traces, swap)?;
        assert_eq!(rt; left.status, status, "{line}, call {swap}");
        assert!(rt;
            left.written.as_slice() == text.as_bytes(),
            "{line}, call {swap}"
        );
    }
    Ok(())
}

const CHANGED: (u8, &str) = (5, "trace: Changed block 0\n");

const FAULT: (u8, &str) = (7, "fault: shelf\n");

const WHY_SET: &str = "#2 line 1 call M.main\n#4 line 2 set i = 0 *\n";

const SESSION: &str = "#200001 line 2 test true\n#4 line 2 set i = 0\n";

/// A command over a trace of 196 blocks, a call of the shelf behind the opening, and what is answered where the trace is another from
/// that call on, and where that call fails. The index was gathered at the opening, so `why` reads block 0 alone, for event 4, and a
/// session block 195 before it; what the run wrote is told by each block once. What a session said before stands.
static LATER: [(&str, u32, (u8, &str), (u8, &str)); 7] = [
    ("why t e4", 1, CHANGED, FAULT),
    ("why t e4", 2, (0, WHY_SET), (0, WHY_SET)),
    ("output t", 1, CHANGED, FAULT),
    ("output t", 2, (0, "100000\n-- finished\n"), FAULT),
    (
        "output t",
        197,
        (0, "100000\n-- finished\n"),
        (0, "100000\n-- finished\n"),
    ),
    (
        "explore t",
        2,
        (5, "#200001 line 2 test true\ntrace: Changed block 0\n"),
        (7, "#200001 line 2 test true\nfault: shelf\n"),
    ),
    ("explore t", 3, (0, SESSION), (0, SESSION)),
];

#[test]
fn a_long_trace_is_read_by_blocks(rt: HostRuntime) -> Result<(), Fail> {
    let alloc = rt.alloc();
    let traces = two_traces(alloc, LONG)?;
    assert!(rt; traces.0.len() < 1_000_000_000);
    let behind = traces
        .0
        .len()
        .saturating_sub(frame_at(traces.0.as_slice(), 1));
    let opening = (behind / PIECE) as u32;
    for &(line, call, changed, fault) in &LATER {
        let at = opening.saturating_add(4).saturating_add(call);
        let left = told(alloc, line, &traces, at)?;
        assert!(rt; is_answer(&left, changed), "{line}, call {call}");
        let left = failed(alloc, line, traces.0.as_slice(), at)?;
        assert!(rt; is_answer(&left, fault), "{line}, call {call}");
    }
    Ok(())
}

#[test]
fn a_trace_of_one_byte_is_cut(rt: HostRuntime) -> Result<(), Fail> {
    for line in ["output old", "why old p0", "questions old"] {
        let left = call(rt.alloc(), line, PROGRAMS[0], b"W", NOTHING)?;
        assert_eq!(rt; left.status, 5, "{line}");
        assert!(rt;
            left.written.as_slice() == b"trace: Cut at byte 1\n".as_slice(),
            "{line}"
        );
    }
    Ok(())
}

/// Asks for the first event of each of 70 blocks, and then for that of the first again.
fn look<V: EventView, L: Ledger, R: Abort>(rt: &R, view: &mut V, blank: Blank)
    requires name { blank.name ≡ L.name }
    requires parts { blank.parts ≡ L.parts }
    requires some { 0 < blank.parts }
{
    let mut steps = Steps::<L>::new(blank);
    for block in 0..71_u32 {
        let n = block % 70 * 1024;
        assert!(rt; n < view.count(), "event {n}");
        assert!(rt; view.event(n, &mut steps).is_ok(), "event {n}");
    }
}

/// Asks for two events of one block.
fn look_beside<V: EventView, L: Ledger, R: Abort>(rt: &R, view: &mut V, blank: Blank)
    requires name { blank.name ≡ L.name }
    requires parts { blank.parts ≡ L.parts }
    requires some { 0 < blank.parts }
{
    let mut steps = Steps::<L>::new(blank);
    for n in 0..2_u32 {
        assert!(rt; n < view.count(), "event {n}");
        assert!(rt; view.event(n, &mut steps).is_ok(), "event {n}");
    }
}

#[test]
fn a_block_is_read_again_once_64_others_were(rt: HostRuntime) -> Result<(), Fail> {
    let alloc = rt.alloc();
    let (trace, other) = two_traces(alloc, LONG)?;
    assert!(rt; trace.len() < 1_000_000_000);
    let (head, _, version) = read_head(alloc, trace.as_slice())?;
    let Some(head) = short_head(head) else {
        return Err(Fail::new("the head is long"));
    };
    assert!(rt; head.source.as_slice().len() < 1000);
    let typed = program_of_source(alloc, head.source.as_slice())?;
    let mut shelf = shelf_of(alloc, trace.as_slice(), other.as_slice(), NEVER)?;
    let (pages, _) = Pages::open(
        alloc,
        &mut shelf,
        "t",
        &head,
        version,
        &typed.program,
        &mut None,
    )?;
    let mut view = PagedView::over(&mut shelf, pages);
    look_beside::<PagedView<'_, SwapShelf, Pages>, Brand, HostRuntime>(
        &rt,
        &mut view,
        Blank::new(1),
    );
    assert_eq!(rt; view.loads(), 1);
    look::<PagedView<'_, SwapShelf, Pages>, Brand, HostRuntime>(&rt, &mut view, Blank::new(1));
    assert_eq!(rt;
        view.loads(),
        71,
        "block 0 was held, and is read again behind 69 others"
    );
    Ok(())
}
