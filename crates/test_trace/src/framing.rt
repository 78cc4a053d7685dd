//! A run without an event, written to two mirrors.
ghost use Rattle.std.specs.Prelude.{◌≡◌};

use std::alloc::{AllocError, Global};
use std::test::Fail;
use wy_event::record::{Coverage, Head, Tail};
use wy_event::sequence::Sequence;
use wy_framing::{FrameRecorder, MemoryTraceSink, TraceSink};
use wy_record::{Phase, RecordError, Recorder};

fn record<R: Recorder>(alloc: Global, recorder: &mut R) -> Result<(), RecordError>
    requires { R.phase recorder.old ≡ Phase.Ready }
{
    let head = Head {
        steps: 100,
        input: Sequence::new(Vec::new(alloc)),
        source: Sequence::new(Vec::new(alloc)),
    };
    recorder.start("one", &head, Vec::new(alloc))?;
    recorder.finish(&Tail {
        coverage: Coverage {
            statements: Sequence::new(Vec::new(alloc)),
        },
        stop: 1,
        last: 0,
        steps: 3,
        events: 0,
        uses: 0,
        output: 0,
    })
}

/// What a recording left: its answer, how far its recorder is, and what two mirrors and a third hold.
#[derive(Drop)]
struct Left {
    answer: Result<(), RecordError>,
    phase: Phase,
    first: Option<Vec<u8>>,
    second: Option<Vec<u8>>,
    third: Option<Vec<u8>>,
}

/// Records into two mirrors, which fail at the listed calls.
fn recorded(alloc: Global, first: Vec<u32>, second: Vec<u32>) -> Result<Left, AllocError> {
    let mut mirrors: Vec<Box<dyn TraceSink>> = Vec::new(alloc);
    mirrors.push(Box::new(alloc, MemoryTraceSink::new(alloc, first))?)?;
    mirrors.push(Box::new(alloc, MemoryTraceSink::new(alloc, second))?)?;
    let mut recorder = FrameRecorder::new(alloc, mirrors);
    let answer = record(alloc, &mut recorder);
    Ok(Left {
        answer,
        phase: recorder.phase(),
        first: recorder.mirror(0)?,
        second: recorder.mirror(1)?,
        third: recorder.mirror(2)?,
    })
}

#[test]
fn both_mirrors_have_the_trace(rt: HostRuntime) -> Result<(), Fail> {
    let alloc = rt.alloc();
    let left = recorded(alloc, Vec::new(alloc), Vec::new(alloc))?;
    assert!(rt; left.phase == Phase::Done, "it is done");
    let first = left.first.expect(&rt, "the first");
    let second = left.second.expect(&rt, "the second");
    assert!(rt; first.starts_with(b"WHYTRAC2H"), "it begins so");
    assert_eq!(rt; first.len(), 97, "8, and frames of 17, 9, 26 and 37");
    assert!(rt; first.as_slice() == second.as_slice(), "they are alike");
    assert!(rt; left.third.is_none(), "there is no third");
    Ok(())
}

#[test]
fn each_call_of_the_second_fails_in_turn(rt: HostRuntime) -> Result<(), Fail> {
    let alloc = rt.alloc();
    for call in 1..5u32 {
        let left = recorded(alloc, Vec::new(alloc), Vec::from_slice(alloc, &[call])?)?;
        assert!(rt;
            left.answer == Err(RecordError::SinkFault { mirror: 1 }),
            "it is named"
        );
        assert!(rt; left.phase == Phase::Failed, "it takes no more");
    }
    Ok(())
}

#[test]
fn a_recorder_of_no_mirror_finishes(rt: HostRuntime) -> Result<(), Fail> {
    let alloc = rt.alloc();
    let mut recorder = FrameRecorder::new(alloc, Vec::new(alloc));
    assert!(rt; record(alloc, &mut recorder).is_ok(), "nothing refuses");
    assert!(rt; recorder.phase() == Phase::Done, "it is done");
    assert!(rt; recorder.mirror(0)?.is_none(), "it has none");
    Ok(())
}
