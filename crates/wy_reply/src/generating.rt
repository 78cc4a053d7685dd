//! What is answered for a generated program.
ghost use Rattle.std.specs.Prelude.{◌≡◌, IfOk};
ghost use Rattle.wy_kernel.specs.Parts.{program_of};
ghost use Rattle.wy_reply.specs.declared.status.Status.TheVariants.{Done};
ghost use Rattle.wy_reply.specs.Generated.{generated_report, sizes_line};

use crate::answer::Answer;
use crate::sizes::sizes;
use std::alloc::{AllocError, Global};
use wy_kernel::limit::STEPS_LIMIT;
use wy_kernel::program::Program;

#[tactic(auto, unfolding(crate::specs::Generated::sizes_line))]
fn line(
    alloc: Global,
    number: u32,
    events: u32,
    answer: usize,
    flow: usize,
) -> Result<Vec<u8>, AllocError>
    ensures { IfOk result (λ line. line.items ≡ sizes_line number events answer flow) }
{
    let first = format!(in alloc; "gen {number}: {events} events, ")?;
    let mut line = first.into_bytes();
    let second = format!(in alloc; "{answer} in the answer, {flow} in its data\n")?;
    line.extend_from_slice(second.as_bytes())?;
    Ok(line)
}

/// The sizes of the run of the generated program of a number.
pub fn answer_to_generated(
    alloc: Global,
    program: &Program,
    number: u32,
) -> Result<Answer, AllocError>
    ensures status { IfOk result (λ answer. answer.status ≡ Done) }
    ensures text { IfOk result (λ answer. answer.text.items
        ≡ generated_report number (program_of program.now)) }
{
    let sizes = sizes(alloc, program, STEPS_LIMIT)?;
    let text = line(alloc, number, sizes.events, sizes.answer, sizes.data)?;
    Ok(Answer::done(text))
}
