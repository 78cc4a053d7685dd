//! The last values on the stack as a row, the oldest first.

ghost use Rattle.std.specs.Prelude.{◌≡◌, IfOk, map};
ghost use Rattle.wy_operands.specs.Layout.{values_of};
ghost use Rattle.wy_operands.specs.Values.{last_many};
ghost use Rattle.wy_operation.specs.Operands.{carried};

use std::alloc::{AllocError, Global};
use wy_operands::Operands;
use wy_operation::operand::Part;

/// So many of the last values.
pub fn parts<'b>(
    alloc: Global,
    stack: &'b Operands,
    count: usize,
) -> Result<Vec<Part<'b>>, AllocError>
    ensures { IfOk result (λ row. map carried row.items ≡ last_many count (values_of stack.now)) }
{
    let mut row = Vec::new(alloc);
    let mut left = count;
    while left > 0 {
        left -= 1;
        row.push(Part {
            value: stack.value_at(left),
            uses: stack.uses_at(left),
        })?;
    }
    Ok(row)
}
