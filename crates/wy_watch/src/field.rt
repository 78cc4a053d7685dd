//! The fields and classes of a program by their names (JLS 6.5, 8.3).

ghost use Rattle.std.specs.Prelude.{◌≡◌, ◌<◌, ◌^◌, IfSome, length};
ghost use Rattle.wy_kernel.specs.Parts.{program_of};
ghost use Rattle.wy_kernel.specs.Program.{class};
ghost use Rattle.wy_kernel.specs.View.{class_of, field_of};
ghost use Rattle.wy_watch.specs.Names.{class_named, declared_field, field_above, is_meant};

use wy_kernel::program::Program;
use wy_kernel::types::{Field, NONE};

fn is_meant(field: &Field, is_static: bool, class: usize, name: &str) -> bool
    ensures { result ≡ is_meant is_static class name.now (field_of field.now) }
{
    field.is_static == is_static && field.class as usize == class && field.name.as_str() == name
}

/// The field that a class declares by a name, static or of its objects.
#[tactic(auto, using(crate::proofs::Positions::nowhere))]
fn declared_field(program: &Program, is_static: bool, class: usize, name: &str) -> Option<u32>
    requires { length program.now.fields.items < 2 ^ 32 }
    ensures field { result ≡ declared_field (program_of program.now) is_static class name.now }
    ensures within { IfSome result (λ f. f < length program.now.fields.items) }
{
    for n in 0..program.fields() {
        if is_meant(program.field(n), is_static, class, name) {
            return Some(n);
        }
    }
    None
}

/// The superclass of a class, if it has one.
#[tactic(auto, unfolding(wy_kernel::specs::View::present, wy_kernel::specs::Program::class))]
fn above(program: &Program, number: usize) -> Option<usize>
    ensures { result ≡ (class (program_of program.now) number).above }
{
    if number >= program.classes.len() {
        return None;
    }
    let above = program.classes[number].above;
    if above == NONE {
        None
    } else {
        Some(above as usize)
    }
}

/// The field that the nearest class from one upward declares by a name, static or of its objects.

pub(crate) fn field_above(
    program: &Program,
    is_static: bool,
    class: usize,
    name: &str,
) -> Option<u32>
    requires { length program.now.fields.items < 2 ^ 32 }
    ensures field { result ≡ field_above (program_of program.now) is_static class name.now }
    ensures within { IfSome result (λ f. f < length program.now.fields.items) }
{
    let mut at = class;
    for _ in 0..program.classes.len() {
        if let Some(field) = declared_field(program, is_static, at, name) {
            return Some(field);
        }
        let Some(next) = above(program, at) else {
            return None;
        };
        at = next;
    }
    None
}

#[tactic(auto, unfolding(wy_kernel::specs::Program::class))]
fn class_name(program: &Program, number: usize) -> &str
    requires { number < length program.now.classes.items }
    ensures { result.now ≡ (class (program_of program.now) number).name }
{
    program.classes[number].name.as_str()
}

/// The class of this name.
#[tactic(auto, using(crate::proofs::Positions::nowhere))]
pub(crate) fn class_named(program: &Program, name: &str) -> Option<usize>
    ensures { result ≡ class_named (program_of program.now) name.now }
{
    for n in 0..program.classes.len() {
        if class_name(program, n) == name {
            return Some(n);
        }
    }
    None
}
