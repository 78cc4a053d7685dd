//! A text as it is compared: without carriage returns, in whole lines.
ghost use Rattle.std.specs.Prelude.{◌≡◌, IfOk};
ghost use Rattle.wy_expect.specs.Expected.{plain, without_returns};
ghost use Rattle.wy_telling.specs.Output.{whole_lines};

use std::alloc::{AllocError, Global};
use wy_telling::ends_its_line;

/// A text without its carriage returns.
pub(crate) fn without_returns(alloc: Global, text: &[u8]) -> Result<Vec<u8>, AllocError>
    ensures { IfOk result (λ rest. rest.items ≡ without_returns text.now) }
{
    text.iter().filter(|b| **b != b'\r').copied().collect(alloc)
}

/// A text with a line feed where its last line has none.
pub(crate) fn whole_lines(text: Vec<u8>) -> Result<Vec<u8>, AllocError>
    ensures { IfOk result (λ lines. lines.items ≡ whole_lines text.items) }
{
    let mut lines = text;
    if !ends_its_line(lines.as_slice()) {
        lines.push(b'\n')?;
    }
    Ok(lines)
}

pub(crate) fn plain(alloc: Global, text: &[u8]) -> Result<Vec<u8>, AllocError>
    ensures { IfOk result (λ lines. lines.items ≡ plain text.now) }
{
    whole_lines(without_returns(alloc, text)?)
}
