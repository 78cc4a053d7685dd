//! The names of methods, fields and types.

ghost use Rattle.std.specs.Prelude.{◌≡◌, ◌++◌, OnOk, string_bytes};
ghost use Rattle.wy_kernel.specs.View.{present};
ghost use Rattle.wy_kernel.specs.Parts.{program_of};
ghost use Rattle.wy_kernel.specs.Program.{type_of_code};
ghost use Rattle.wy_meaning.specs.Library.{base_name, brackets_text, type_name};
ghost use Rattle.wy_text.specs.Names.{field_name, made_name, member_name, method_name, numbered};

use crate::{put_decimal, put_full_name};
use std::alloc::AllocError;
use wy_kernel::code::{BRACKETS_UNIT, base_of, primitive_name};
use wy_kernel::program::Program;
use wy_kernel::types::{Base, NONE};

/// Puts a method's name behind that of its class, and nothing where there is no method.
#[tactic(auto, unfolding(crate::specs::Names::method_name, wy_kernel::specs::View::present))]
pub fn put_method_name(out: &mut Vec<u8>, program: &Program, number: u32) -> Result<(), AllocError>
    ensures { OnOk result (out.new.items
        ≡ out.old.items ++ method_name (program_of program.now) (present number)) }
{
    if number == NONE {
        return Ok(());
    }
    if number as usize >= program.methods.len() {
        return put_member_name(out, program, 0, "");
    }
    let method = program.method(number);
    put_member_name(out, program, method.class, method.name.as_str())
}

/// Puts a field's name behind that of its class.
#[tactic(auto, unfolding(crate::specs::Names::field_name))]
pub fn put_field_name(out: &mut Vec<u8>, program: &Program, number: u32) -> Result<(), AllocError>
    ensures { OnOk result (out.new.items
        ≡ out.old.items ++ field_name (program_of program.now) number) }
{
    if number as usize >= program.fields.len() {
        return put_member_name(out, program, 0, "");
    }
    let field = program.field(number);
    put_member_name(out, program, field.class, field.name.as_str())
}

#[tactic(auto, unfolding(crate::specs::Names::member_name))]
fn put_member_name(
    out: &mut Vec<u8>,
    program: &Program,
    class: u32,
    own: &str,
) -> Result<(), AllocError>
    ensures { OnOk result (out.new.items
        ≡ out.old.items ++ member_name (program_of program.now) class own.now) }
{
    put_full_name(out, program, class)?;
    out.push(b'.')?;
    out.extend_from_slice(own.as_bytes())
}

/// Puts the name of a type by its code, and nothing where there is no code.
#[tactic(auto, unfolding(crate::specs::Names::made_name, wy_kernel::specs::View::present))]
pub(crate) fn put_made_name(
    out: &mut Vec<u8>,
    program: &Program,
    code: u32,
) -> Result<(), AllocError>
    ensures { OnOk result (out.new.items
        ≡ out.old.items ++ made_name (program_of program.now) (present code)) }
{
    if code == NONE {
        return Ok(());
    }
    put_type_name(out, program, code)
}

#[tactic(auto, unfolding(wy_meaning::specs::Library::type_name, wy_kernel::specs::Program::type_of_code))]
fn put_type_name(out: &mut Vec<u8>, program: &Program, code: u32) -> Result<(), AllocError>
    ensures { OnOk result (out.new.items
        ≡ out.old.items ++ type_name (program_of program.now) (type_of_code code)) }
{
    put_base_name(out, program, base_of(code % BRACKETS_UNIT))?;
    put_brackets(out, code / BRACKETS_UNIT)
}

fn put_brackets(name: &mut Vec<u8>, pairs: u32) -> Result<(), AllocError>
    ensures { OnOk result (name.new.items ≡ name.old.items ++ brackets_text pairs) }
{
    let mut left = pairs;
    while left > 0 {
        name.extend_from_slice("[]".as_bytes())?;
        left -= 1;
    }
    Ok(())
}

#[tactic(auto, unfolding(wy_meaning::specs::Library::base_name))]
fn put_base_name(out: &mut Vec<u8>, program: &Program, base: Base) -> Result<(), AllocError>
    ensures { OnOk result (out.new.items
        ≡ out.old.items ++ base_name (program_of program.now) base) }
{
    match base {
        Base::Primitive(primitive) => out.extend_from_slice(primitive_name(primitive).as_bytes()),
        Base::Class(class) => put_full_name(out, program, class),
    }
}

/// Puts an event, or the object that it made.
#[tactic(auto, unfolding(crate::specs::Names::numbered))]
pub(crate) fn put_number(out: &mut Vec<u8>, number: u32) -> Result<(), AllocError>
    ensures { OnOk result (out.new.items ≡ out.old.items ++ numbered number) }
{
    out.push(b'#')?;
    put_decimal(out, number)
}
