//! The clause of a `try` that takes an object (JLS 14.20.1).

ghost use Rattle.std.specs.Prelude.{◌≡◌, IfOk, option_map};
ghost use Rattle.wy_kernel.specs.Parts.{program_of};
ghost use Rattle.wy_operation.specs.Clauses.{taking};

use std::alloc::{AllocError, Global};
use wy_kernel::form::Catch;
use wy_kernel::program::Program;
use wy_state::below::is_subclass;

/// The first clause whose class is the object's class or above it.
pub fn find_clause<'b>(
    alloc: Global,
    program: &Program,
    clauses: &'b [Catch],
    class: u32,
) -> Result<Option<&'b Catch>, AllocError>
    ensures { IfOk result (λ found. option_map (λ c. c.now) found
        ≡ taking (program_of program.now) clauses.now class) }
{
    let mut left = clauses;
    while let Some((clause, rest)) = left.split_first() {
        if is_subclass(alloc, program, class, clause.class)? {
            return Ok(Some(clause));
        }
        left = rest;
    }
    Ok(None)
}
