//! Which classes and types lie below which at run time (JLS 4.10).

ghost use Rattle.std.specs.Prelude.{◌≡◌, IfOk};
ghost use Rattle.wy_kernel.specs.Parts.{program_of};
ghost use Rattle.wy_kernel.specs.Program.{base_below, is_below, is_object, is_subclass};

use crate::above::stands_above;
use std::alloc::{AllocError, Global};
use wy_kernel::builtin::OBJECT;
use wy_kernel::code::primitive_code;
use wy_kernel::program::Program;
use wy_kernel::types::{Base, Ty};

/// Whether a class is another, or lies below it.
pub fn is_subclass(
    alloc: Global,
    program: &Program,
    class: u32,
    above: u32,
) -> Result<bool, AllocError>
    ensures { IfOk result (λ b. b ≡ is_subclass (program_of program.now) class above) }
{
    if above == OBJECT {
        return Ok(true);
    }
    stands_above(alloc, program, class, above)
}

/// Whether a run-time type lies below a type: an array below Object, and one of references below one of what its elements are below.
#[tactic(auto, unfolding(wy_kernel::specs::Program::is_below))]
pub fn is_below(alloc: Global, program: &Program, found: Ty, ty: Ty) -> Result<bool, AllocError>
    ensures { IfOk result (λ b. b ≡ is_below (program_of program.now) found ty) }
{
    let Ty::Of {
        base: a,
        brackets: m,
    } = found
    else {
        return Ok(false);
    };
    let Ty::Of {
        base: b,
        brackets: n,
    } = ty
    else {
        return Ok(false);
    };
    if m > n {
        return Ok(is_object(b));
    }
    if m < n {
        return Ok(false);
    }
    is_base_below(alloc, program, a, b)
}

#[tactic(auto, unfolding(wy_kernel::specs::Program::base_below))]
fn is_base_below(alloc: Global, program: &Program, a: Base, b: Base) -> Result<bool, AllocError>
    ensures { IfOk result (λ below. below ≡ base_below (program_of program.now) a b) }
{
    match (a, b) {
        (Base::Class(c), Base::Class(d)) => is_subclass(alloc, program, c, d),
        (Base::Primitive(p), Base::Primitive(q)) => Ok(primitive_code(p) == primitive_code(q)),
        _ => Ok(false),
    }
}

#[tactic(auto, unfolding(wy_kernel::specs::Program::is_object))]
fn is_object(base: Base) -> bool
    ensures { result ≡ is_object base }
{
    match base {
        Base::Class(class) => class == OBJECT,
        Base::Primitive(_) => false,
    }
}
