//! Where in its text a program threw.
ghost use Rattle.std.specs.Prelude.{◌≡◌, ◌++◌, OnOk, option_and_then, slice_get};
ghost use Rattle.wy_kernel.specs.View.{present};
ghost use Rattle.wy_text.specs.EndLines.{place_of, place_on};

use crate::number::put_decimal;
use std::alloc::AllocError;
use wy_kernel::program::Program;
use wy_kernel::types::NONE;

/// Puts where a site is behind a text.
#[tactic(auto, unfolding(crate::specs::EndLines::place_of))]
pub fn put_place(out: &mut Vec<u8>, program: &Program, site: u32) -> Result<(), AllocError>
    ensures { OnOk result (out.new.items
        ≡ out.old.items ++ place_of program.now.lines.items (present site)) }
{
    put_line(out, line_at(program, site))
}

/// The line of the token that a site is, and None where it is no token.
#[tactic(auto, unfolding(wy_kernel::specs::View::present))]
fn line_at(program: &Program, site: u32) -> Option<u32>
    ensures { result ≡ option_and_then (slice_get program.now.lines.items) (present site) }
{
    if site == NONE {
        return None;
    }
    line_of(program, site)
}

fn line_of(program: &Program, token: u32) -> Option<u32>
    ensures { result ≡ slice_get program.now.lines.items token }
{
    program.lines.get(token as usize).copied()
}

#[tactic(auto, unfolding(crate::specs::EndLines::place_on))]
fn put_line(out: &mut Vec<u8>, line: Option<u32>) -> Result<(), AllocError>
    ensures { OnOk result (out.new.items ≡ out.old.items ++ place_on line) }
{
    match line {
        Some(line) => {
            out.extend_from_slice("line ".as_bytes())?;
            put_decimal(out, line)
        }
        None => out.extend_from_slice("library".as_bytes()),
    }
}
