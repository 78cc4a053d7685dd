//! The bodies of the methods of Object.

ghost use Rattle.std.specs.Prelude.{◌≡◌, IfOk, option_map};
ghost use Rattle.wy_kernel.specs.View.{body_of};
ghost use Rattle.wy_library.specs.Library as library;

use crate::form::{boxed, equal, on_this, other, this};
use crate::make::{alone, body, local, returned, site_of, statement};
use std::alloc::{AllocError, Global};
use wy_kernel::builtin::OBJECT;
use wy_kernel::form::{Body, LibOp};

/// `toString`
pub fn object_to_string(alloc: Global) -> Result<Option<Body>, AllocError>
    ensures { IfOk result (λ b. option_map body_of b ≡ library.object_to_string) }
{
    let text = on_this(alloc, LibOp::ObjectText, site_of(0))?;
    let parts = alone(alloc, statement(0, 1, returned(text)))?;
    body(alloc, 0, 0, OBJECT, None, parts)
}

/// `equals`
pub fn object_equals(alloc: Global) -> Result<Option<Body>, AllocError>
    ensures { IfOk result (λ b. option_map body_of b ≡ library.object_equals) }
{
    let left = boxed(alloc, this())?;
    let right = boxed(alloc, other())?;
    let same = equal(left, right, site_of(1));
    let parts = alone(alloc, statement(1, 3, returned(same)))?;
    let o = local(alloc, 1, "o", OBJECT)?;
    body(alloc, 1, 2, OBJECT, Some(o), parts)
}
