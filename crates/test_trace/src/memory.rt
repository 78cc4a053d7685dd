//! The outside in memory: what is told is what is given, and exactly the listed calls fail.

ghost use Rattle.std.specs.Prelude.{IfOk};
ghost use Rattle.wy_outside.specs.Shelf.{AreDistinct};

use std::alloc::{AllocError, Global};
use std::test::Fail;
use wy_outside::memory::{MemoryShelf, MemorySink, MemorySource, SwapShelf};
use wy_outside::shelf::{Shelf, ShelfError};
use wy_outside::sink::{Sink, SinkError};
use wy_outside::source::{Source, SourceError};

fn two_files(alloc: Global) -> Result<Vec<(String, Vec<u8>)>, AllocError>
    ensures { IfOk result (λ files. AreDistinct files.items) }
{
    let five = (
        String::from_str(alloc, "Five.java")?,
        Vec::from_slice(alloc, b"12345")?,
    );
    let none = (String::from_str(alloc, "None.java")?, Vec::new(alloc));
    Ok(vec![in alloc; five, none]?)
}

/// A name, how many bytes are asked for, and the answer: the bytes or the error.
static READS: [(&str, u32, &[u8], Option<ShelfError>); 9] = [
    ("Five.java", 4, b"1234", None),
    ("Five.java", 5, b"12345", None),
    ("Five.java", 6, b"", Some(ShelfError::Failed)),
    ("Five.java", 6, b"12345", None),
    ("Five.java", 0, b"", None),
    ("None.java", 1, b"", None),
    ("Five.jav", 6, b"", Some(ShelfError::Absent)),
    ("", 6, b"", Some(ShelfError::Absent)),
    ("Absent.java", 6, b"", Some(ShelfError::Failed)),
];

#[test]
fn a_shelf_answers_by_its_files_but_at_the_listed_calls(rt: HostRuntime) -> Result<(), Fail> {
    let alloc = rt.alloc();
    let fails = Vec::from_slice(alloc, &[3, 9])?;
    let mut shelf = MemoryShelf::new(two_files(alloc)?, fails);
    for &(name, max, bytes, error) in &READS {
        match shelf.read(alloc, name, max) {
            Ok(given) => assert!(rt;
                error.is_none() && given.as_slice() == bytes,
                "{name} {max}"
            ),
            Err(given) => assert!(rt; error == Some(given), "{name} {max}"),
        }
    }
    Ok(())
}

/// A name, a place, how many bytes are asked for from there, and the answer: the bytes or the error.
static PARTS: [(&str, u32, u32, &[u8], Option<ShelfError>); 8] = [
    ("Five.java", 0, 9, b"12345", None),
    ("Five.java", 1, 3, b"234", None),
    ("Five.java", 4, 2, b"", Some(ShelfError::Failed)),
    ("Five.java", 4, 2, b"5", None),
    ("Five.java", 5, 1, b"", None),
    ("Five.java", 4_294_967_295, 4_294_967_295, b"", None),
    ("None.java", 0, 1, b"", None),
    ("Absent.java", 0, 1, b"", Some(ShelfError::Absent)),
];

#[test]
fn a_part_of_a_file_is_what_stands_there(rt: HostRuntime) -> Result<(), Fail> {
    let alloc = rt.alloc();
    let mut shelf = MemoryShelf::new(two_files(alloc)?, Vec::from_slice(alloc, &[3])?);
    for &(name, from, len, bytes, error) in &PARTS {
        match shelf.read_at(alloc, name, from, len) {
            Ok(given) => assert!(rt;
                error.is_none() && given.as_slice() == bytes,
                "{name} {from} {len}"
            ),
            Err(given) => assert!(rt; error == Some(given), "{name} {from} {len}"),
        }
    }
    Ok(())
}

/// A name, a size, and whether the file has as many bytes.
static SIZES: [(&str, u32, Result<bool, ShelfError>); 6] = [
    ("Five.java", 0, Ok(true)),
    ("Five.java", 5, Ok(true)),
    ("Five.java", 5, Err(ShelfError::Failed)),
    ("Five.java", 6, Ok(false)),
    ("None.java", 1, Ok(false)),
    ("Absent.java", 0, Err(ShelfError::Absent)),
];

#[test]
fn a_file_reaches_as_far_as_it_has_bytes(rt: HostRuntime) -> Result<(), Fail> {
    let alloc = rt.alloc();
    let mut shelf = MemoryShelf::new(two_files(alloc)?, Vec::from_slice(alloc, &[3])?);
    for &(name, size, want) in &SIZES {
        assert!(rt; shelf.reaches(name, size) == want, "{name} {size}");
    }
    Ok(())
}

#[test]
fn a_file_changes_before_the_call_that_is_named(rt: HostRuntime) -> Result<(), Fail> {
    let alloc = rt.alloc();
    let changed = (
        String::from_str(alloc, "Five.java")?,
        Vec::from_slice(alloc, b"abc")?,
    );
    let mut shelf = SwapShelf::new(two_files(alloc)?, changed, 3);
    assert!(rt; shelf.reaches("Five.java", 5) == Ok(true));
    assert!(rt; shelf.read(alloc, "Five.java", 2)?.as_slice() == b"12".as_slice());
    assert!(rt; shelf.read_at(alloc, "Five.java", 1, 9)?.as_slice() == b"bc".as_slice());
    assert!(rt; shelf.reaches("Five.java", 5) == Ok(false));
    assert!(rt; shelf.read(alloc, "None.java", 2)?.is_empty());
    Ok(())
}

/// What each call takes of `abcde`, and what is left behind it. None is a call that fails.
static TAKES: [(Option<&[u8]>, &[u8]); 5] = [
    (Some(b"ab"), b"cde"),
    (None, b"cde"),
    (Some(b"cd"), b"e"),
    (Some(b"e"), b""),
    (Some(b""), b""),
];

#[test]
fn a_source_goes_on_behind_a_failing_call(rt: HostRuntime) -> Result<(), Fail> {
    let alloc = rt.alloc();
    let bytes = Vec::from_slice(alloc, b"abcde")?;
    let mut source = MemorySource::new(bytes, Vec::from_slice(alloc, &[2])?);
    for &(want, rest) in &TAKES {
        match source.read(alloc, 2) {
            Ok(given) => assert!(rt; want == Some(given.as_slice()), "{rest:?}"),
            Err(error) => assert!(rt; want.is_none() && error == SourceError::Failed, "{rest:?}"),
        }
        assert!(rt; source.rest() == rest, "{rest:?}");
    }
    Ok(())
}

/// What is written, the answer, and what was written by then.
static WRITES: [(&[u8], Result<(), SinkError>, &[u8]); 4] = [
    (b"ab", Ok(()), b"ab"),
    (b"cdefg", Err(SinkError::Failed), b"abcd"),
    (b"", Ok(()), b"abcd"),
    (b"h", Ok(()), b"abcdh"),
];

#[test]
fn a_sink_keeps_half_of_a_failing_write(rt: HostRuntime) -> Result<(), Fail> {
    let alloc = rt.alloc();
    let mut sink = MemorySink::new(alloc, Vec::from_slice(alloc, &[2])?);
    for &(bytes, want, written) in &WRITES {
        assert!(rt; sink.write(bytes) == want, "{bytes:?}");
        assert!(rt; sink.bytes() == written, "{bytes:?}");
    }
    Ok(())
}
