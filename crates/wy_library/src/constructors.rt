//! The bodies of the constructors of the classes below Throwable: each calls that of the superclass with the same parameters.

ghost use Rattle.std.specs.Prelude.{◌≡◌, ◌<◌, ◌≤◌, ◌+◌, ◌-◌, ◌*◌, ◌++◌, IfOk, OnOk, map, option_map};
ghost use Rattle.wy_kernel.specs.View.{act, body_of, expression, row_of};
ghost use Rattle.wy_library.specs.Library as library;
ghost use Rattle.wy_kernel.specs.Program.{library_methods, first_source_class};

use crate::form::{call_on_this, other};
use crate::make::{alone, body, evaluated, local, site_of, statement};
use std::alloc::{AllocError, Global};
use wy_kernel::builtin::{EXCEPTION, STRING, THROWABLE};
use wy_kernel::form::{Body, CallForm, Expr, StmtForm};

// The number of the constructor without a message.
fn first_constructor(class: u32) -> u32
    requires low { 2 ≤ class }
    requires high { class < first_source_class }
    ensures is { result ≡ library.first_constructor class }
    ensures few { result < library_methods }
{
    if class == THROWABLE {
        2
    } else {
        6 + 2 * (class - EXCEPTION)
    }
}

fn superclass_called(
    alloc: Global,
    method: u32,
    called: u32,
    above: u32,
    args: Vec<Expr>,
) -> Result<StmtForm, AllocError>
    requires { method < library_methods }
    ensures { IfOk result (λ f. act f ≡ library.superclass_called method called above
        (row_of (map expression args.items))) }
{
    let site = site_of(method);
    let value = call_on_this(alloc, CallForm::Direct, called, above, args, site)?;
    Ok(evaluated(value))
}

fn plain_constructor(alloc: Global, class: u32, above: u32) -> Result<Option<Body>, AllocError>
    requires low { 3 ≤ class }
    requires high { class < first_source_class }
    requires above_low { 2 ≤ above }
    requires above_high { above < first_source_class }
    ensures { IfOk result (λ b.
        option_map body_of b ≡ library.plain_constructor class (6 + 2 * (class - 3)) above) }
{
    let method = 6 + 2 * (class - EXCEPTION);
    let number = 14 + 4 * (class - EXCEPTION);
    let called = first_constructor(above);
    let call = superclass_called(alloc, method, called, above, Vec::new(alloc))?;
    let parts = alone(alloc, statement(method, number + 1, call))?;
    body(alloc, method, number, class, None, parts)
}

fn constructor_with_message(
    alloc: Global,
    class: u32,
    above: u32,
) -> Result<Option<Body>, AllocError>
    requires low { 3 ≤ class }
    requires high { class < first_source_class }
    requires above_low { 2 ≤ above }
    requires above_high { above < first_source_class }
    ensures { IfOk result (λ b.
        option_map body_of b ≡ library.constructor_with_message class (7 + 2 * (class - 3)) above) }
{
    let method = 7 + 2 * (class - EXCEPTION);
    let number = 16 + 4 * (class - EXCEPTION);
    let called = first_constructor(above) + 1;
    let args = vec![in alloc; other()]?;
    let call = superclass_called(alloc, method, called, above, args)?;
    let parts = alone(alloc, statement(method, number + 1, call))?;
    let m = local(alloc, method, "m", STRING)?;
    body(alloc, method, number, class, Some(m), parts)
}

/// Puts both constructors of a class behind those that are there.
pub fn put_constructors(
    alloc: Global,
    all: &mut Vec<Option<Body>>,
    class: u32,
    above: u32,
) -> Result<(), AllocError>
    requires low { 3 ≤ class }
    requires high { class < first_source_class }
    requires above_low { 2 ≤ above }
    requires above_high { above < first_source_class }
    ensures { OnOk result (map (option_map body_of) all.new.items
        ≡ map (option_map body_of) all.old.items ++ library.constructors_below class above) }
{
    all.push(plain_constructor(alloc, class, above)?)?;
    all.push(constructor_with_message(alloc, class, above)?)?;
    Ok(())
}
