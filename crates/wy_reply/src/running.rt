//! What is answered for a run.
ghost use Rattle.std.specs.Prelude.{◌≡◌, IfOk};
ghost use Rattle.wy_kernel.specs.Parts.{program_of};
ghost use Rattle.wy_record.specs.declared.recorder.Phase.TheVariants.{Recording};
ghost use Rattle.wy_reply.specs.declared.status.Status.TheVariants.{Done};
ghost use Rattle.wy_reply.specs.Report.{report, report_of_end};

use crate::answer::Answer;
use std::alloc::{AllocError, Global};
use wy_event::record::Head;
use wy_event::sequence::Sequence;
use wy_kernel::program::Program;
use wy_machine::{Ended, run};
use wy_record::{QuietRecorder, Recorder};
use wy_telling::whole_report;

/// A recorder that keeps nothing, ready for the events of a run.
fn quiet(alloc: Global) -> Result<QuietRecorder, AllocError>
    ensures { IfOk result (λ recorder. recorder.phase ≡ Recording) }
{
    let head = Head {
        steps: 0,
        input: Sequence::new(Vec::new(alloc)),
        source: Sequence::new(Vec::new(alloc)),
    };
    let mut recorder = QuietRecorder::new(alloc);
    match recorder.start("", &head, Vec::new(alloc)) {
        Ok(()) => Ok(recorder),
        Err(_) => Err(AllocError),
    }
}

/// What is written of a run: its output in whole lines, and how it ended.
pub fn report(alloc: Global, program: &Program, ended: Ended) -> Result<Vec<u8>, AllocError>
    ensures { IfOk result (λ text. text.items
        ≡ report_of_end (program_of program.now) program.now.lines.items ended) }
{
    let Ended {
        output,
        tail,
        thrown,
    } = ended;
    whole_report(alloc, program, output, tail.stop, &thrown)
}

/// What a program gives: the report of its run.
pub fn answer_to_program(
    alloc: Global,
    program: &Program,
    input: &[u8],
    steps: u32,
) -> Result<Answer, AllocError>
    ensures status { IfOk result (λ answer. answer.status ≡ Done) }
    ensures text { IfOk result (λ answer. answer.text.items
        ≡ report (program_of program.now) program.now.lines.items input.now steps) }
{
    let mut recorder = quiet(alloc)?;
    let ended = match run(alloc, program, input, steps, &mut recorder) {
        Ok(ended) => ended,
        Err(_) => return Err(AllocError),
    };
    let text = report(alloc, program, ended)?;
    Ok(Answer::done(text))
}
