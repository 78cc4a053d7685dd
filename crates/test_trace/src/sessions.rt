//! A session whose keys come in two pieces, of which a call fails: each line that was whole by then is answered, and then the fault is
//! told. And how far a session reads its keys.

use crate::call::{Fails, Given, NOTHING, call, call_with};
use crate::programs::PROGRAMS;
use std::alloc::{AllocError, Global};
use std::test::Fail;

/// How many lines the keys have: more than come in one piece of 8,192 bytes.
const LINES: u32 = 2000;

/// A call of the keys that fails, how many lines are answered, and what is told behind that. The end of the keys is a third call.
static FAULTS: [(u32, u32, u8, &[u8]); 4] = [
    (1, 0, 7, b"fault: keys\n"),
    (2, 1638, 7, b"fault: keys\n"),
    (3, LINES, 7, b"fault: keys\n"),
    (4, LINES, 0, b""),
];

fn times(alloc: Global, count: u32, text: &[u8]) -> Result<Vec<u8>, AllocError> {
    let mut all = Vec::new(alloc);
    for _ in 0..count {
        all.extend_from_slice(text)?;
    }
    Ok(all)
}

#[test]
fn lines_before_a_fault_of_the_keys_are_answered(rt: HostRuntime) -> Result<(), Fail> {
    let alloc = rt.alloc();
    let lines = times(alloc, LINES, b"list\n")?;
    for &program in &PROGRAMS {
        let line = "record Main.java -i in -o new";
        let trace = call(alloc, line, program, b"", NOTHING)?.first;
        let given = Given {
            program,
            trace: trace.as_slice(),
            certificate: b"",
            lines: lines.as_slice(),
        };
        for &(keys, answered, status, fault) in &FAULTS {
            let left = call_with(alloc, "explore old", given, Fails { keys, ..NOTHING })?;
            let mut due = times(alloc, answered, b"no such\n")?;
            due.extend_from_slice(fault)?;
            assert_eq!(rt; left.status, status, "call {keys}");
            assert!(rt; left.written.as_slice() == due.as_slice(), "call {keys}");
        }
    }
    Ok(())
}

/// What comes before more lines than are read at a time, and whether the session reads all of them.
static FRONTS: [(&[u8], bool); 4] = [
    (b"", true),
    (b"quit now\n", true),
    (b"quit\n", false),
    (b"up\nquit\n", false),
];

#[test]
fn keys_are_read_to_their_end_or_to_quit(rt: HostRuntime) -> Result<(), Fail> {
    let alloc = rt.alloc();
    let program = PROGRAMS[0];
    let line = "record Main.java -i in -o new";
    let trace = call(alloc, line, program, b"", NOTHING)?.first;
    for &(front, to_end) in &FRONTS {
        let mut lines = Vec::from_slice(alloc, front)?;
        lines.extend_from_slice(times(alloc, LINES, b"list\n")?.as_slice())?;
        let given = Given {
            program,
            trace: trace.as_slice(),
            certificate: b"",
            lines: lines.as_slice(),
        };
        let left = call_with(alloc, "explore old", given, NOTHING)?;
        assert!(rt;
            left.status == 0 && left.lines.is_empty() == to_end,
            "{front:?}"
        );
    }
    Ok(())
}
