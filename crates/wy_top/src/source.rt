//! What is answered for a source: its run, its recording, or why it is no program.
ghost use Rattle.std.specs.Prelude.{◌≡◌, ◌<◌, ◌≤◌, IfOk, false, length};
ghost use Rattle.wy_outside.specs.Counts.{Rose};
ghost use Rattle.wy_record.specs.declared.recorder.Phase.TheVariants.{Failed, Ready};
ghost use Rattle.wy_gen.specs.Generated.{source};
ghost use Rattle.wy_reply.specs.Generated.{generated_report};
ghost use Rattle.wy_reply.specs.Report.{report};
ghost use Rattle.wy_reply.specs.Recordings.{spelling};
ghost use Rattle.wy_reply.specs.Statuses.{code_of, is_of_files};
ghost use Rattle.wy_top.specs.Due.{DueFor};
ghost use Rattle.wy_kernel.specs.Limits.{source_limit};
ghost use Rattle.wy_kernel.specs.declared.program.Program.{Program};
ghost use Rattle.wy_program.specs.Programs.{IsProgramOf};
ghost use Rattle.wy_record.specs.declared.recorder.Phase.TheVariants.{Done as Finished};
ghost use Rattle.wy_top.specs.Left.{IsSettled, LeavesSource, StartsNone};
ghost use Rattle.wy_top.specs.Replies.{RecordsSource, RefusesSource};

use crate::files::Contents;
use crate::laws::programs_are_not_refused;
use std::alloc::{AllocError, Global};
use wy_event::record::Head;
use wy_event::sequence::Sequence;
use wy_gen::program;
use wy_program::{SourceError, program_of_source};
use wy_record::Recorder;
use wy_reply::{Answer, Refusal, answer_to_generated, answer_to_program, answer_to_recording};

/// The answer to a source that gives no program.
fn answer_to_error(alloc: Global, error: SourceError) -> Result<Answer, AllocError>
    ensures { IfOk result (λ answer. RefusesSource error answer) }
{
    match error {
        SourceError::Refused(refusal) => Answer::refused(alloc, Refusal::Program(refusal)),
        SourceError::NoMemory => Err(AllocError),
    }
}

/// What a source gives: what its program does with the input in so many steps, or why it is none.
pub fn run_source(
    alloc: Global,
    source: &[u8],
    input: &[u8],
    steps: u32,
) -> Result<Answer, AllocError>
    requires { length source.now ≤ source_limit }
    ensures due { IfOk result (λ answer. DueFor source.now
        (λ p lines. report p lines input.now steps) (code_of answer.status) answer.text.items) }
    ensures settled { IfOk result (λ answer. is_of_files answer.status ≡ false) }
{
    match program_of_source(alloc, source) {
        Ok(typed) => answer_to_program(alloc, &typed.program, input, steps),
        Err(error) => answer_to_error(alloc, error),
    }
}

/// What the generated source of a number gives: the sizes of the run of its program.
pub fn run_generated(alloc: Global, number: u32) -> Result<Answer, AllocError>
    requires some { 1 ≤ number }
    requires few { number ≤ 2000 }
    ensures due { IfOk result (λ answer. DueFor (source number)
        (λ p lines. generated_report number p) (code_of answer.status) answer.text.items) }
    ensures settled { IfOk result (λ answer. is_of_files answer.status ≡ false) }
{
    let source = program(alloc, number)?;
    match program_of_source(alloc, source.as_slice()) {
        Ok(typed) => answer_to_generated(alloc, &typed.program, number),
        Err(error) => answer_to_error(alloc, error),
    }
}

/// The same, and the recorder has the trace of the run.
pub fn record_source<R: Recorder>(
    alloc: Global,
    contents: Contents,
    steps: u32,
    name: &str,
    recorder: &mut R,
) -> Result<Answer, AllocError>
    requires sound { R.Sound recorder.old }
    requires ready { R.phase recorder.old ≡ Ready }
    requires bound { length contents.source.items ≤ source_limit }
    ensures sound { R.Sound recorder.new }
    ensures records { IfOk result (λ answer. RecordsSource (spelling R.opening R.frame R.closing)
        contents.source.items contents.input.items steps
        (R.mirrors recorder.old) (R.mirrors recorder.new)
        (R.faults recorder.old) (R.faults recorder.new) answer) }
    ensures left { LeavesSource (spelling R.opening R.frame R.closing)
        contents.source.items contents.input.items steps (R.phase recorder.new)
        (R.mirrors recorder.old) (R.mirrors recorder.new) }
    ensures settled { IfOk result (λ answer.
        ¬ Rose (R.faults recorder.old) (R.faults recorder.new) → IsSettled (R.phase recorder.new)) }
    ensures finishes { IfOk result (λ answer. ¬ Rose (R.faults recorder.old) (R.faults recorder.new)
        → (p : Program) → IsProgramOf contents.source.items p → R.phase recorder.new ≡ Finished) }
    ensures unstarted { IfOk result (λ answer.
        StartsNone (code_of answer.status) → recorder.new ≡ recorder.old) }
    ensures failed { R.faults recorder.old < R.faults recorder.new
        → R.phase recorder.new ≡ Failed }
{
    let Contents { source, input } = contents;
    match program_of_source(alloc, source.as_slice()) {
        Ok(typed) => {
            let head = Head {
                steps,
                input: Sequence::new(input),
                source: Sequence::new(source),
            };
            answer_to_recording(alloc, &typed.program, name, &head, recorder)
        }
        Err(error) => {
            programs_are_not_refused();
            answer_to_error(alloc, error)
        }
    }
}
