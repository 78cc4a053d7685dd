//! A recording of which the second mirror fails: the first one is a call ahead.

use crate::call::{Fails, NOTHING, call};
use crate::programs::PROGRAMS;
use std::test::Fail;

/// The bytes before event 2 of the first program, and before its event 1.
const TWO_EVENTS: usize = 244;

const ONE_EVENT: usize = 212;

#[test]
fn a_mirror_before_the_one_that_failed_has_one_event_more(rt: HostRuntime) -> Result<(), Fail> {
    let alloc = rt.alloc();
    let fails = Fails {
        second: 4,
        ..NOTHING
    };
    let line = "record Main.java -i in -o new";
    let left = call(alloc, line, PROGRAMS[0], b"", fails)?;
    assert_eq!(rt; left.status, 7);
    assert_eq!(rt; left.first.len(), TWO_EVENTS);
    assert!(rt;
        ONE_EVENT <= left.second.len() && left.second.len() < TWO_EVENTS,
        "part of an event"
    );
    Ok(())
}
