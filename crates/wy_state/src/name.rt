//! The names of run-time types, and the text that an object without a text of its own stands for (JLS 10.8, 15.18.1).

ghost use Rattle.std.specs.Prelude.{◌≡◌, ◌++◌, IfOk, codes};
ghost use Rattle.wy_kernel.specs.Parts.{program_of};
ghost use Rattle.wy_kernel.specs.Program.{class, full_name};
ghost use Rattle.wy_meaning.specs.Library.{base_name, hexadecimal, type_name};

use std::alloc::{AllocError, Global};
use wy_kernel::builtin::FIRST_SOURCE_CLASS;
use wy_kernel::code::primitive_name;
use wy_kernel::program::Program;
use wy_kernel::types::{Base, Ty};

/// The name of a type, with its brackets.
pub fn type_text(alloc: Global, program: &Program, ty: Ty) -> Result<Vec<u16>, AllocError>
    ensures { IfOk result (λ units. units.items ≡ type_name (program_of program.now) ty) }
{
    let name = type_name(alloc, program, ty)?;
    units_of(alloc, name.as_slice())
}

/// The name of a type, and the number of an object of it in hexadecimal digits.
pub fn object_text(
    alloc: Global,
    program: &Program,
    ty: Ty,
    number: u32,
) -> Result<Vec<u16>, AllocError>
    ensures { IfOk result (λ units. units.items ≡
        type_name (program_of program.now) ty ++ codes "@" ++ hexadecimal number) }
{
    let mut text = type_name(alloc, program, ty)?;
    let digits = hexadecimal(alloc, number)?;
    text.extend_from_slice("@".as_bytes())?;
    text.extend_from_slice(digits.as_slice())?;
    units_of(alloc, text.as_slice())
}

fn units_of(alloc: Global, text: &[u8]) -> Result<Vec<u16>, AllocError>
    ensures { IfOk result (λ units. units.items ≡ text.now) }
{
    text.iter().map(|byte| u16::from(*byte)).collect(alloc)
}

#[tactic(auto, unfolding(wy_meaning::specs::Library::hexadecimal))]
fn hexadecimal(alloc: Global, number: u32) -> Result<Vec<u8>, AllocError>
    ensures { IfOk result (λ digits. digits.items ≡ hexadecimal number) }
{
    let digits = format!(in alloc; "{number:x}")?;
    Ok(digits.into_bytes())
}

#[tactic(auto, unfolding(wy_meaning::specs::Library::type_name))]
fn type_name(alloc: Global, program: &Program, ty: Ty) -> Result<Vec<u8>, AllocError>
    ensures { IfOk result (λ name. name.items ≡ type_name (program_of program.now) ty) }
{
    let Ty::Of { base, brackets } = ty else {
        return Ok(Vec::new(alloc));
    };
    let mut name = base_name(alloc, program, base)?;
    let mut left = brackets;
    while left > 0 {
        name.extend_from_slice("[]".as_bytes())?;
        left -= 1;
    }
    Ok(name)
}

#[tactic(auto, unfolding(wy_meaning::specs::Library::base_name))]
fn base_name(alloc: Global, program: &Program, base: Base) -> Result<Vec<u8>, AllocError>
    ensures { IfOk result (λ name. name.items ≡ base_name (program_of program.now) base) }
{
    match base {
        Base::Primitive(primitive) => joined(alloc, "", primitive_name(primitive)),
        Base::Class(class) => full_name(alloc, program, class),
    }
}

fn full_name(alloc: Global, program: &Program, class: u32) -> Result<Vec<u8>, AllocError>
    ensures { IfOk result (λ name. name.items ≡ full_name (program_of program.now) class) }
{
    let name = class_name(program, class);
    if class < FIRST_SOURCE_CLASS {
        let full = joined(alloc, "java.lang.", name)?;
        return Ok(full);
    }
    let own = joined(alloc, "", name)?;
    Ok(own)
}

fn joined(alloc: Global, first: &str, second: &str) -> Result<Vec<u8>, AllocError>
    ensures { IfOk result (λ text. text.items ≡ first.now ++ second.now) }
{
    let mut text = Vec::new(alloc);
    text.extend_from_slice(first.as_bytes())?;
    text.extend_from_slice(second.as_bytes())?;
    Ok(text)
}

/// The name of a class, and nothing for one that the program hasn't.
fn class_name(program: &Program, number: u32) -> &str
    ensures { result.now ≡ (class (program_of program.now) number).name }
{
    if number as usize >= program.classes.len() {
        return "";
    }
    program.class(number).name.as_str()
}
