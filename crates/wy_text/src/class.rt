//! The names of classes.
ghost use Rattle.std.specs.Prelude.{◌≡◌, ◌++◌, OnOk};
ghost use Rattle.wy_kernel.specs.View.{present};
ghost use Rattle.wy_kernel.specs.Parts.{program_of};
ghost use Rattle.wy_kernel.specs.Program.{class, full_name};
ghost use Rattle.wy_text.specs.EndLines.{name_of};

use std::alloc::AllocError;
use wy_kernel::builtin::FIRST_SOURCE_CLASS;
use wy_kernel::program::Program;
use wy_kernel::types::NONE;

/// Puts a class's full name behind a text, and nothing where there is no class.
#[tactic(auto, unfolding(crate::specs::EndLines::name_of, wy_kernel::specs::View::present))]
pub fn put_class_name(out: &mut Vec<u8>, program: &Program, number: u32) -> Result<(), AllocError>
    ensures { OnOk result (out.new.items
        ≡ out.old.items ++ name_of (program_of program.now) (present number)) }
{
    if number == NONE {
        return Ok(());
    }
    put_full_name(out, program, number)
}

/// Puts a class's full name behind a text. One that the program hasn't has no name of its own.
pub fn put_full_name(out: &mut Vec<u8>, program: &Program, number: u32) -> Result<(), AllocError>
    ensures { OnOk result (out.new.items
        ≡ out.old.items ++ full_name (program_of program.now) number) }
{
    let own = own_name(program, number);
    if number < FIRST_SOURCE_CLASS {
        out.extend_from_slice("java.lang.".as_bytes())?;
        out.extend_from_slice(own.as_bytes())?;
        return Ok(());
    }
    out.extend_from_slice(own.as_bytes())?;
    Ok(())
}

/// The name of a class without its package, and nothing for one that the program hasn't.
fn own_name(program: &Program, number: u32) -> &str
    ensures { result.now ≡ (class (program_of program.now) number).name }
{
    if number as usize >= program.classes.len() {
        return "";
    }
    program.class(number).name.as_str()
}
