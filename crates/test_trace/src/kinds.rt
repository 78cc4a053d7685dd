//! A run recorded into three boxed sinks: one in memory, one in memory of which a call fails, and a file.

ghost use Rattle.std.specs.Prelude.{◌≡◌, ◌<◌, ◌++◌, ◌∷◌, [], OnOk, map};
ghost use Rattle.wy_framing.specs.Served.{AreLow};
ghost use Rattle.wy_outside.specs.Counts.{last_count};

use crate::programs::PROGRAMS;
use std::alloc::{AllocError, Global};
use std::fs;
use std::test::Fail;
use wy_event::record::Head;
use wy_event::sequence::Sequence;
use wy_framing::{FileTraceSink, FrameRecorder, MemoryTraceSink, TraceSink};
use wy_kernel::limit::SOURCE_LIMIT;
use wy_kernel::program::Program;
use wy_machine::record;
use wy_program::{TypedProgram, program_of_source};
use wy_record::{RecordError, Recorder};

const PATH: &str = "a_recorder_of_three_wrote_this.bin";

/// What the second sink takes of the first program: it is opened, takes the head, ten events and the end, and is closed.
const CALLS: u32 = 14;

/// Why a recording was refused, and what the sinks in memory hold.
#[derive(Drop)]
struct Left {
    refused: Option<RecordError>,
    first: Vec<u8>,
    second: Vec<u8>,
}

fn program(rt: &HostRuntime) -> Result<TypedProgram, Fail> {
    let source = PROGRAMS[0].source.as_bytes();
    if source.len() > SOURCE_LIMIT as usize {
        return Err(Fail::new("the source is long"));
    }
    let typed = program_of_source(rt.alloc(), source).map_err(|_| "no program")?;
    Ok(typed)
}

fn head(alloc: Global) -> Result<Head, AllocError> {
    let source = Vec::from_slice(alloc, PROGRAMS[0].source.as_bytes())?;
    Ok(Head {
        steps: 1000,
        input: Sequence::new(Vec::new(alloc)),
        source: Sequence::new(source),
    })
}

/// Puts a sink behind those of a list. Neither its count of faults nor one of theirs stands at its last value.
fn put(mirrors: &mut Vec<Box<dyn TraceSink>>, sink: Box<dyn TraceSink>) -> Result<(), AllocError>
    requires low { AreLow (map ⟦<Box<dyn TraceSink> as TraceSink>⟧.faults mirrors.old.items) }
    requires own { ⟦<Box<dyn TraceSink> as TraceSink>⟧.faults sink < last_count }
    ensures items { OnOk result (mirrors.new.items ≡ mirrors.old.items ++ (sink ∷ [])) }
    ensures low { OnOk result (AreLow
        (map ⟦<Box<dyn TraceSink> as TraceSink>⟧.faults mirrors.new.items)) }
{
    mirrors.push(sink)?;
    Ok(())
}

/// Records the program. The call of this number fails at the second sink.
fn recorded(rt: &HostRuntime, program: &Program, fails: u32) -> Result<Left, AllocError> {
    let alloc = rt.alloc();
    let failing = Vec::from_slice(alloc, &[fails])?;
    let mut mirrors: Vec<Box<dyn TraceSink>> = Vec::new(alloc);
    let first = MemoryTraceSink::new(alloc, Vec::new(alloc));
    put(&mut mirrors, Box::new(alloc, first)?)?;
    put(
        &mut mirrors,
        Box::new(alloc, MemoryTraceSink::new(alloc, failing))?,
    )?;
    put(
        &mut mirrors,
        Box::new(alloc, FileTraceSink::new(*rt, alloc))?,
    )?;
    let mut recorder = FrameRecorder::new(alloc, mirrors);
    let head = head(alloc)?;
    let answer = record(alloc, program, PATH, &head, Vec::new(alloc), &mut recorder);
    Ok(Left {
        refused: answer.err(),
        first: recorder.mirror(0)?.unwrap_or(Vec::new(alloc)),
        second: recorder.mirror(1)?.unwrap_or(Vec::new(alloc)),
    })
}

/// What the file holds, which is then removed.
fn taken(rt: &HostRuntime) -> Result<Vec<u8>, Fail> {
    let bytes = fs::read(rt, PATH).map_err(|_| "the file is there")?;
    fs::remove_file(rt, PATH).map_err(|_| "it can be removed")?;
    Ok(bytes)
}

#[test]
fn three_sinks_have_one_trace(rt: HostRuntime) -> Result<(), Fail> {
    let typed = program(&rt)?;
    let left = recorded(&rt, &typed.program, 0)?;
    assert!(rt; left.refused.is_none(), "it is recorded");
    assert!(rt; left.first.starts_with(b"WHYTRAC2H"), "it begins so");
    assert!(rt;
        left.first.as_slice() == left.second.as_slice(),
        "in memory"
    );
    assert!(rt;
        left.first.as_slice() == taken(&rt)?.as_slice(),
        "in the file"
    );
    Ok(())
}

#[test]
fn the_sink_that_fails_is_named(rt: HostRuntime) -> Result<(), Fail> {
    let typed = program(&rt)?;
    let whole = recorded(&rt, &typed.program, 0)?;
    for call in 1..=CALLS {
        let left = recorded(&rt, &typed.program, call)?;
        assert!(rt;
            left.refused == Some(RecordError::SinkFault { mirror: 1 }),
            "call {call}"
        );
        assert!(rt;
            whole.first.starts_with(left.first.as_slice())
                && left.first.starts_with(left.second.as_slice()),
            "prefixes of the trace"
        );
    }
    let _ = taken(&rt)?;
    Ok(())
}
