//! What is answered for a run that is recorded.
ghost use Rattle.std.specs.Prelude.{◌≡◌, ◌<◌, ◌^◌, IfOk};
ghost use Rattle.wy_kernel.specs.Parts.{program_of};
ghost use Rattle.wy_record.specs.declared.recorder.Phase.TheVariants.{Done as Finished, Failed, Ready};
ghost use Rattle.wy_reply.specs.declared.status.Status.TheVariants.{Done};
ghost use Rattle.wy_reply.specs.Recordings.{HoldByPhase, RecordsAs, spelling};
ghost use Rattle.wy_reply.specs.Report.{recorded_of_end};

use crate::answer::Answer;
use crate::lines::{Refusal, recorded_line};
use crate::running::report;
use std::alloc::{AllocError, Global};
use wy_event::record::Head;
use wy_fitting::end_fits;
use wy_kernel::program::Program;
use wy_machine::{Ended, record};
use wy_record::{RecordError, Recorder};

/// What is written of a run that was recorded.
fn recorded_report(alloc: Global, program: &Program, ended: Ended) -> Result<Vec<u8>, AllocError>
    ensures { IfOk result (λ text. text.items
        ≡ recorded_of_end (program_of program.now) program.now.lines.items ended) }
{
    let events = ended.tail.events;
    let mut text = report(alloc, program, ended)?;
    let line = recorded_line(alloc, events)?;
    text.extend_from_slice(line.as_slice())?;
    Ok(text)
}

/// What a program gives: the report of its run, whose trace each mirror of the recorder has then. Where the recorder
/// failed or memory ran out, each has a prefix of the trace.
pub fn answer_to_recording<R: Recorder>(
    alloc: Global,
    program: &Program,
    name: &str,
    head: &Head,
    recorder: &mut R,
) -> Result<Answer, AllocError>
    requires sound { R.Sound recorder.old }
    requires ready { R.phase recorder.old ≡ Ready }
    requires steps { head.now.steps < 2 ^ 32 }
    ensures sound { R.Sound recorder.new }
    ensures records { IfOk result (λ answer. RecordsAs (spelling R.opening R.frame R.closing)
        program.now head.now (R.mirrors recorder.old) (R.mirrors recorder.new)
        (R.faults recorder.old) (R.faults recorder.new) answer) }
    ensures held { HoldByPhase (spelling R.opening R.frame R.closing) (program_of program.now)
        head.now.source head.now.input head.now.steps (R.phase recorder.new)
        (R.mirrors recorder.old) (R.mirrors recorder.new) }
    ensures finished { IfOk result (λ answer.
        answer.status ≡ Done → R.phase recorder.new ≡ Finished) }
    ensures failed { R.faults recorder.old < R.faults recorder.new
        → R.phase recorder.new ≡ Failed }
{
    match record(alloc, program, name, head, Vec::new(alloc), recorder) {
        Ok(ended) => {
            end_fits(&ended.tail);
            let text = recorded_report(alloc, program, ended)?;
            Ok(Answer::done(text))
        }
        Err(RecordError::SinkFault { .. }) => Answer::refused(alloc, Refusal::FaultRecorder),
        Err(_) => Err(AllocError),
    }
}
