//! The sizes of a run.

ghost use Rattle.std.specs.Prelude.{◌≡◌, IfOk};
ghost use Rattle.wy_kernel.specs.Parts.{program_of};
ghost use Rattle.wy_reply.specs.RunSizes.{sizes_of};

use crate::sizes::kept::events_of_run;
use crate::sizes::last::answer_sizes;
use crate::sizes::size::Sizes;
use std::alloc::{AllocError, Global};
use std::marker::Brand;
use std::sync::ledger::Blank;
use wy_kernel::program::Program;

/// The sizes of the run of a program without input, in at most so many steps.
pub fn sizes(alloc: Global, program: &Program, steps: u32) -> Result<Sizes, AllocError>
    ensures { IfOk result (λ sizes. sizes ≡ sizes_of (program_of program.now) steps) }
{
    let events = events_of_run(alloc, program, steps)?;
    let count = events.len() as u32;
    let (answer, data) = answer_sizes::<Brand>(alloc, program, events, Blank::new(1))?;
    Ok(Sizes {
        events: count,
        answer,
        data,
    })
}
