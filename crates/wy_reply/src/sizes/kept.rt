//! The events of a run, in memory.

ghost use Rattle.std.specs.Prelude.{◌≡◌, ◌<◌, ◌^◌, IfOk, [], length, map};
ghost use Rattle.wy_event.specs.Record.{recorded};
ghost use Rattle.wy_kernel.specs.Parts.{program_of};
ghost use Rattle.wy_meaning.specs.Run.{events, tail};
ghost use Rattle.wy_record.specs.declared.recorder.Phase.TheVariants.{Recording};
ghost use Rattle.wy_steps.specs.Sets.{nothing};
ghost use Rattle.wy_view.specs.References.{AllRefersBelow};

use law_shaped::references_point_below;
use std::alloc::{AllocError, Global};
use wy_event::record::{Event, Head};
use wy_event::sequence::Sequence;
use wy_kernel::program::Program;
use wy_machine::run;
use wy_record::{MemoryRecorder, Recorder};

/// A recorder that keeps the events of a run, ready for the first.
fn empty_recorder(alloc: Global) -> Result<MemoryRecorder, AllocError>
    ensures none { IfOk result (λ recorder. map recorded recorder.events.items ≡ []) }
    ensures recording { IfOk result (λ recorder. recorder.phase ≡ Recording) }
{
    let head = Head {
        steps: 0,
        input: Sequence::new(Vec::new(alloc)),
        source: Sequence::new(Vec::new(alloc)),
    };
    let mut recorder = MemoryRecorder::new(alloc);
    match recorder.start("", &head, Vec::new(alloc)) {
        Ok(()) => Ok(recorder),
        Err(_) => Err(AllocError),
    }
}

/// The events of the run of a program without input: few, and each refers to earlier ones, as a view asks for.
pub(crate) fn events_of_run(
    alloc: Global,
    program: &Program,
    steps: u32,
) -> Result<Vec<Event>, AllocError>
    ensures events { IfOk result (λ kept.
        map recorded kept.items ≡ events nothing (program_of program.now) [] steps) }
    ensures count { IfOk result (λ kept.
        length kept.items ≡ (tail nothing (program_of program.now) [] steps).events) }
    ensures few { IfOk result (λ kept. length kept.items < 2 ^ 32) }
    ensures refer_below { IfOk result (λ kept. AllRefersBelow kept.items) }
{
    let mut recorder = empty_recorder(alloc)?;
    match run(alloc, program, &[], steps, &mut recorder) {
        Ok(_) => {}
        Err(_) => return Err(AllocError),
    }
    references_point_below();
    Ok(recorder.take())
}
