//! A trace through a box, in memory and in a file.
use std::alloc::Global;
use std::fs;
use std::test::Fail;
use wy_framing::{FileTraceSink, MemoryTraceSink, TraceSink};
use wy_outside::sink::SinkError;

const PATH: &str = "a_trace_sink_wrote_this.bin";

/// Puts three pieces: below a block, beyond one, and a byte.
fn put_three(alloc: Global, sink: &mut Box<dyn TraceSink>) -> Result<(), SinkError> {
    sink.open(PATH)?;
    sink.put(b"first")?;
    let long = Vec::from_elem(alloc, 7u8, 70_000).map_err(|_| SinkError::NoMemory)?;
    sink.put(long.as_slice())?;
    sink.put(b".")?;
    sink.close()
}

#[test]
fn a_file_has_what_was_put(rt: HostRuntime) -> Result<(), Fail> {
    let alloc = rt.alloc();
    let mut sink: Box<dyn TraceSink> = Box::new(alloc, FileTraceSink::new(rt, alloc))?;
    assert!(rt; put_three(alloc, &mut sink).is_ok(), "it is written");
    let bytes = fs::read(&rt, PATH).expect(&rt, "the file");
    fs::remove_file(&rt, PATH).expect(&rt, "it is there");
    assert_eq!(rt; bytes.len(), 70_006, "all of the bytes");
    assert!(rt;
        bytes.starts_with(b"first\x07") && bytes.ends_with(b"\x07."),
        "in their order"
    );
    assert!(rt; sink.put(b"late") == Err(SinkError::Failed), "it is closed");
    Ok(())
}

#[test]
fn each_call_fails_in_turn(rt: HostRuntime) -> Result<(), Fail> {
    let alloc = rt.alloc();
    for call in 1..6u32 {
        let fails = Vec::from_slice(alloc, &[call])?;
        let mut sink: Box<dyn TraceSink> = Box::new(alloc, MemoryTraceSink::new(alloc, fails))?;
        assert!(rt;
            put_three(alloc, &mut sink) == Err(SinkError::Failed),
            "it fails"
        );
    }
    Ok(())
}
