//! The fields of a program by the words of questions (JLS 8.1.4, 8.3).

ghost use Rattle.std.specs.Prelude.{◌≡◌, ◌<◌, ◌^◌, IfSome, length};
ghost use Rattle.std.specs.Str.{bytes_eq};
ghost use Rattle.wy_kernel.specs.Parts.{program_of};
ghost use Rattle.wy_kernel.specs.Program.{class, full_name};
ghost use Rattle.wy_kernel.specs.View.{field_of};
ghost use Rattle.wy_ask.specs.Asked.{extends, field_number, has_fields_of, is_meant};

use crate::parts::{LIBRARY, behind};
use wy_kernel::builtin::FIRST_SOURCE_CLASS;
use wy_kernel::code::{class_of_code, is_array};
use wy_kernel::program::Program;
use wy_kernel::types::{Field, NONE};

#[tactic(auto, unfolding(wy_kernel::specs::Program::class))]
fn class_name(program: &Program, number: u32) -> &str
    ensures { result.now ≡ (class (program_of program.now) number).name }
{
    if (number as usize) < program.classes.len() {
        program.class(number).name.as_str()
    } else {
        ""
    }
}

/// Whether this is the word of a class.
fn is_class(program: &Program, number: u32, word: &str) -> bool
    ensures { result ≡ bytes_eq (full_name (program_of program.now) number) word.now }
{
    let name = class_name(program, number);
    if number >= FIRST_SOURCE_CLASS {
        return name == word;
    }
    match behind(word, LIBRARY) {
        Some(rest) => name == rest,
        None => false,
    }
}

fn is_meant(program: &Program, field: &Field, is_static: bool, class: &str, name: &str) -> bool
    ensures { result ≡ is_meant (program_of program.now) is_static class.now name.now
        (field_of field.now) }
{
    field.is_static == is_static
        && field.name.as_str() == name
        && is_class(program, field.class, class)
}

/// The field of this name that a class declares, static or of its objects.
#[tactic(auto, using(crate::proofs::Fields::field_nowhere))]
pub fn field_number(program: &Program, is_static: bool, class: &str, name: &str) -> Option<u32>
    requires { length program.now.fields.items < 2 ^ 32 }
    ensures number { result ≡ field_number (program_of program.now) is_static class.now name.now }
    ensures within { IfSome result (λ field. field < length program.now.fields.items) }
{
    for n in 0..program.fields() {
        if is_meant(program, program.field(n), is_static, class, name) {
            return Some(n);
        }
    }
    None
}

/// The superclass of a class, if it has one.
#[tactic(auto, unfolding(wy_kernel::specs::View::present, wy_kernel::specs::Program::class))]
fn above(program: &Program, number: u32) -> Option<u32>
    ensures { result ≡ (class (program_of program.now) number).above }
{
    if (number as usize) >= program.classes.len() {
        return None;
    }
    let above = program.class(number).above;
    if above == NONE { None } else { Some(above) }
}

/// Whether a class is another, or extends it.
#[tactic(auto, using(crate::proofs::Fields::extends_here, crate::proofs::Fields::extends_on, crate::proofs::Fields::extends_top, crate::proofs::Fields::extends_end))]
fn extends(program: &Program, number: u32, other: u32) -> bool
    ensures { result ≡ extends (program_of program.now) (length program.now.classes.items) number
        other }
{
    let mut at = number;
    for _ in 0..program.classes.len() {
        if at == other {
            return true;
        }
        let Some(next) = above(program, at) else {
            return false;
        };
        at = next;
    }
    at == other
}

/// Whether an object of this type code has the fields that a class declares.
#[tactic(auto, unfolding(crate::specs::Asked::has_fields_of))]
pub fn has_fields_of(program: &Program, code: u32, class: u32) -> bool
    ensures { result ≡ has_fields_of (program_of program.now) code class }
{
    !is_array(code) && extends(program, class_of_code(code), class)
}
