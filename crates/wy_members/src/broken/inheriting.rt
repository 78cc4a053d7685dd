//! The methods that override, implement and are overridden: those that aren't private (JLS 8.4.8).

ghost use Rattle.std.specs.Prelude.{◌≡◌, ◌≤◌, IfOk, filter, length, map, not};
ghost use Rattle.wy_kernel.specs.Program.{Method as PlainMethod};
ghost use Rattle.wy_kernel.specs.View.{method_of};

use std::alloc::{AllocError, Global};
use wy_kernel::types::Method;

/// Copies of the methods that aren't private, in their order.
pub fn inheriting_methods(alloc: Global, methods: &[Method]) -> Result<Vec<Method>, AllocError>
    ensures value { IfOk result (λ found. map method_of found.items ≡ filter (λ (m : PlainMethod).
        not m.is_private) (map method_of methods.now)) }
    ensures few { IfOk result (λ found. length found.items ≤ length methods.now) }
{
    let mut found = Vec::new(alloc);
    let mut left = methods;
    while let [first, behind @ ..] = left {
        if !first.is_private {
            found.push(copy_of(first)?)?;
        }
        left = behind;
    }
    Ok(found)
}

fn copy_of(method: &Method) -> Result<Method, AllocError>
    ensures { IfOk result (λ copy. method_of copy ≡ method_of method.now) }
{
    Ok(Method {
        name: method.name.clone()?,
        site: method.site,
        class: method.class,
        params: method.params.clone()?,
        result: method.result,
        form: method.form,
        is_private: method.is_private,
        is_abstract: method.is_abstract,
        is_final: method.is_final,
    })
}
