//! What is read of a program before its traces are.

ghost use Rattle.std.specs.Prelude.{◌≡◌, IfOk};
ghost use Rattle.wy_payload.specs.Ranges.{ranges_of};

use crate::ranges::{Ranges, counts_of, lengths_of, newlines, statics_of};
use std::alloc::{AllocError, Global};
use wy_event::record::Version;
use wy_event::sequence::Sequence;
use wy_kernel::program::Program;

/// The ranges of a trace of this version, by its program.
#[tactic(auto, unfolding(crate::specs::Ranges::ranges_of))]
pub fn ranges_of_program(
    alloc: Global,
    version: Version,
    program: &Program,
) -> Result<Ranges, AllocError>
    ensures { IfOk result (λ r. r ≡ ranges_of version program.now) }
{
    Ok(Ranges {
        version,
        tokens: program.lines.len(),
        classes: program.classes.len(),
        methods: program.methods.len(),
        statements: program.statements,
        statics: Sequence::new(statics_of(alloc, &program.fields)?),
        method_locals: Sequence::new(counts_of(alloc, &program.bodies)?),
        class_locals: Sequence::new(counts_of(alloc, &program.init_bodies)?),
        fixed: Sequence::new(lengths_of(alloc, &program.fixed_texts)?),
        newlines: Sequence::new(newlines(alloc, program)?),
    })
}
