//! Each command over the shelf, the keys, the output and two mirrors, of which each call fails in turn, and over a trace that is another
//! one from each call of the shelf on: what stands then is told by the object and the number of the call.

use crate::call::{Fails, Given, Left, NOTHING, call, call_over, call_with, files};
use crate::paged::another;
use crate::programs::{PROGRAMS, Program};
use std::alloc::{AllocError, Global};
use std::process::Abort;
use std::test::Fail;
use wy_outside::memory::SwapShelf;

/// How often a command calls each object where nothing fails.
#[derive(Clone, Copy)]
struct Calls {
    shelf: u32,
    /// Those of the shelf by which a trace is opened.
    opening: u32,
    /// Those of the shelf by which blocks of it are read again.
    blocks: u32,
    keys: u32,
    out: u32,
    /// Those of each mirror, beside one for each event.
    mirror: u32,
}

/// The command reads no file.
const ALONE: Calls = Calls {
    shelf: 0,
    opening: 0,
    blocks: 0,
    keys: 0,
    out: 1,
    mirror: 0,
};

/// It reads a source alone.
const SOURCE: Calls = Calls { shelf: 1, ..ALONE };

/// It reads a source and an input, or a trace and then a certificate.
const TWO: Calls = Calls { shelf: 2, ..ALONE };

/// It reads a trace whole.
const WHOLE: Calls = Calls {
    shelf: 1,
    opening: 1,
    ..ALONE
};

/// The trace stays on its shelf: asked are whether it is too long, its first bytes, its front, what stands behind that, and its one block
/// of events.
const ASKED: Calls = Calls {
    shelf: 5,
    opening: 4,
    blocks: 1,
    ..ALONE
};

/// The same, where the index that was gathered while the trace was opened tells all.
const OPENED: Calls = Calls {
    shelf: 4,
    blocks: 0,
    ..ASKED
};

/// A mirror is opened, takes the head and the tail, and is closed.
const MIRROR: u32 = 4;

/// The lines of the keys. Each of the eight is answered by a write of its own, and the end of the keys is a call too.
const LINES: &[u8] = b"ask p0\nlist\nup\ngo 3\nsources\nframes\nshow x\nundo\n";

/// The line behind the one that ends the session isn't read.
const QUIT: &[u8] = b"ask p0\nquit\nlist\n";

/// A command, the lines of the keys, its status over the first program, which has no statement 6.2, and over the second, and its calls.
type Row = (&'static str, &'static [u8], [u8; 2], Calls);

static COMMANDS: [Row; 16] = [
    ("run Main.java -i in", LINES, [0, 0], TWO),
    ("run Main.java", LINES, [0, 0], SOURCE),
    (
        "record Main.java -i in -o new",
        LINES,
        [0, 0],
        Calls {
            mirror: MIRROR,
            ..TWO
        },
    ),
    ("output old", LINES, [0, 0], ASKED),
    ("questions old", LINES, [0, 0], ASKED),
    ("why old p0", LINES, [0, 0], ASKED),
    ("affects old e0", LINES, [0, 0], ASKED),
    ("certify old p0", LINES, [0, 0], ASKED),
    ("whynot old 6.2", LINES, [6, 0], OPENED),
    ("scope old 6.2 2", LINES, [6, 0], ASKED),
    (
        "explore old",
        LINES,
        [0, 0],
        Calls {
            keys: 2,
            out: 8,
            ..ASKED
        },
    ),
    ("explore old", QUIT, [0, 0], Calls { keys: 1, ..ASKED }),
    ("check old cert", LINES, [0, 0], Calls { opening: 1, ..TWO }),
    ("audit old", LINES, [0, 0], WHOLE),
    (
        "migrate old -o new",
        LINES,
        [0, 0],
        Calls {
            mirror: MIRROR,
            ..WHOLE
        },
    ),
    ("gen 3", LINES, [0, 0], ALONE),
];

/// The same over a program where it has this status: of a statement that the program lacks no event is asked for.
fn row_over(row: Row, status: u8) -> Row {
    if status == 6 {
        (row.0, row.1, row.2, OPENED)
    } else {
        row
    }
}

/// What a command may call.
#[derive(Clone, Copy, Debug)]
enum Object {
    Shelf,
    Keys,
    Out,
    First,
    Second,
}

const OBJECTS: [Object; 5] = [
    Object::Shelf,
    Object::Keys,
    Object::Out,
    Object::First,
    Object::Second,
];

fn calls_of(calls: Calls, program: Program, object: Object) -> u32 {
    match object {
        Object::Shelf => calls.shelf,
        Object::Keys => calls.keys,
        Object::Out => calls.out,
        Object::First | Object::Second if calls.mirror == 0 => 0,
        Object::First | Object::Second => calls.mirror.saturating_add(program.events),
    }
}

fn fails_at(object: Object, call: u32) -> Fails {
    match object {
        Object::Shelf => Fails {
            shelf: call,
            ..NOTHING
        },
        Object::Keys => Fails {
            keys: call,
            ..NOTHING
        },
        Object::Out => Fails {
            out: call,
            ..NOTHING
        },
        Object::First => Fails {
            first: call,
            ..NOTHING
        },
        Object::Second => Fails {
            second: call,
            ..NOTHING
        },
    }
}

/// The line that names the object. None tells that the output failed.
fn line_of(object: Object) -> &'static [u8] {
    match object {
        Object::Shelf => b"fault: shelf\n",
        Object::Keys => b"fault: keys\n",
        Object::Out => b"",
        Object::First | Object::Second => b"fault: recorder\n",
    }
}

/// The line stands behind what was written before: a prefix of the text that is due, and none where a read or a mirror failed.
fn is_written(object: Object, left: &Left, whole: &Left) -> bool {
    let line = line_of(object);
    let before = left.written.len().saturating_sub(line.len());
    let front = left.written.get(0..before).unwrap_or(&[]);
    left.written.ends_with(line)
        && whole.written.starts_with(front)
        && match object {
            Object::Keys | Object::Out => true,
            Object::Shelf | Object::First | Object::Second => front.is_empty(),
        }
}

/// No mirror was opened where a read failed, each has its trace whole where the output failed, and a prefix of it where a mirror did.
fn is_mirrored(object: Object, left: &Left, whole: &Left) -> bool {
    match object {
        Object::Shelf | Object::Keys => left.first.is_empty() && left.second.is_empty(),
        Object::Out => {
            left.first.as_slice() == whole.first.as_slice()
                && left.second.as_slice() == whole.first.as_slice()
        }
        Object::First | Object::Second => {
            whole.first.starts_with(left.first.as_slice())
                && whole.first.starts_with(left.second.as_slice())
        }
    }
}

/// What stands where a call of the object failed, before the keys were read or behind a line of them.
fn stands(object: Object, left: &Left, whole: &Left, lines: &[u8], unread: bool) -> bool {
    left.status == 7
        && is_written(object, left, whole)
        && is_mirrored(object, left, whole)
        && match object {
            Object::Shelf if unread => left.lines.as_slice() == lines,
            Object::Shelf => lines.ends_with(left.lines.as_slice()),
            Object::Keys => true,
            _ => left.lines.as_slice() == whole.lines.as_slice(),
        }
}

/// What is left where nothing failed: the mirrors have the trace of the run or none, and a command that reads no keys leaves them.
fn is_whole(row: Row, status: u8, whole: &Left, trace: &[u8]) -> bool {
    let mirrored = if row.3.mirror == 0 { &[] } else { trace };
    whole.status == status
        && whole.first.as_slice() == mirrored
        && whole.second.as_slice() == mirrored
        && (row.3.keys > 0 || whole.lines.as_slice() == row.1)
}

fn is_same(left: &Left, whole: &Left) -> bool {
    left.status == whole.status
        && left.written.as_slice() == whole.written.as_slice()
        && left.first.as_slice() == whole.first.as_slice()
        && left.second.as_slice() == whole.first.as_slice()
        && left.lines.as_slice() == whole.lines.as_slice()
}

fn each_call_fails<R: Abort>(
    rt: &R,
    alloc: Global,
    row: Row,
    given: Given<'_>,
    whole: &Left,
) -> Result<(), AllocError> {
    let line = row.0;
    for object in OBJECTS {
        let calls = calls_of(row.3, given.program, object);
        for call in 1..calls.saturating_add(2) {
            let left = call_with(alloc, line, given, fails_at(object, call))?;
            if call <= calls {
                // A trace is opened before the keys are read, and its block is read for a line of them.
                let unread = row.3.keys == 0 || call <= row.3.opening;
                assert!(rt;
                    stands(object, &left, whole, given.lines, unread),
                    "{line}, {object:?}, {call}"
                );
            } else {
                assert!(rt; is_same(&left, whole), "{line}, {object:?}, no call {call}");
            }
        }
    }
    Ok(())
}

/// A trace that is another one from a call of the shelf on is refused while it is opened, or by its block, or is seen no more.
fn is_told(calls: Calls, swap: u32, left: &Left, whole: &Left) -> bool {
    let changed = left.written.as_slice() == b"trace: Changed block 0\n".as_slice();
    if swap <= calls.opening {
        left.status == 5 && left.written.starts_with(b"trace: ") && !changed
    } else if swap <= calls.opening.saturating_add(calls.blocks) {
        left.status == 5 && changed
    } else {
        is_same(left, whole)
    }
}

fn each_call_finds_another<R: Abort>(
    rt: &R,
    alloc: Global,
    row: Row,
    given: Given<'_>,
    whole: &Left,
) -> Result<(), AllocError> {
    let line = row.0;
    let other = another(alloc, given.trace)?;
    for swap in 1..row.3.shelf.saturating_add(2) {
        let changed = (
            String::from_str(alloc, "old")?,
            Vec::from_slice(alloc, other.as_slice())?,
        );
        let mut shelf = SwapShelf::new(files(alloc, given)?, changed, swap);
        let left = call_over(alloc, line, &mut shelf, given.lines, NOTHING)?;
        assert!(rt; is_told(row.3, swap, &left, whole), "{line}, call {swap}");
    }
    Ok(())
}

/// The trace of a program, and the certificate of what its first print comes from.
fn trace_and_certificate(
    alloc: Global,
    program: Program,
) -> Result<(Vec<u8>, Vec<u8>), AllocError> {
    let line = "record Main.java -i in -o new";
    let trace = call(alloc, line, program, b"", NOTHING)?.first;
    let line = "certify old p0";
    let certificate = call(alloc, line, program, trace.as_slice(), NOTHING)?.written;
    Ok((trace, certificate))
}

#[test]
fn what_stands_is_told_at_each_call_of_each_object(rt: HostRuntime) -> Result<(), Fail> {
    let alloc = rt.alloc();
    for at in 0..2_usize {
        let program = PROGRAMS[at];
        let (trace, certificate) = trace_and_certificate(alloc, program)?;
        for &row in &COMMANDS {
            let given = Given {
                program,
                trace: trace.as_slice(),
                certificate: certificate.as_slice(),
                lines: row.1,
            };
            let row = row_over(row, row.2[at]);
            let whole = call_with(alloc, row.0, given, NOTHING)?;
            assert!(rt; is_whole(row, row.2[at], &whole, given.trace), "{}", row.0);
            each_call_fails(&rt, alloc, row, given, &whole)?;
            each_call_finds_another(&rt, alloc, row, given, &whole)?;
        }
    }
    Ok(())
}
