//! The bodies of the constructors and methods of Throwable.

ghost use Rattle.std.specs.Prelude.{◌≡◌, ◌<◌, IfOk, option_map};
ghost use Rattle.wy_kernel.specs.View.{act, body_of, expression, place};
ghost use Rattle.wy_kernel.specs.Form as kernel;
ghost use Rattle.wy_kernel.specs.Builtin.{method_site};
ghost use Rattle.wy_library.specs.Library as library;
ghost use Rattle.wy_kernel.specs.Program.{library_methods};

use crate::form::{
    self, boxed, call_on_this, equal, field, join, null, on_this, other, read, set, text, this,
};
use crate::make::{alone, body, evaluated, guarded, local, reaching, returned, site_of, statement};
use std::alloc::{AllocError, Global};
use wy_kernel::builtin::{STRING, THROWABLE};
use wy_kernel::form::{Body, CallForm, Expr, LibOp, Place, StmtForm};

/// The constructor without a message.
pub fn plain_throwable(alloc: Global) -> Result<Option<Body>, AllocError>
    ensures { IfOk result (λ b. option_map body_of b ≡ library.plain_throwable) }
{
    body(alloc, 2, 4, THROWABLE, None, Vec::new(alloc))
}

// The field of `this` that has the message, by the method that speaks of it.
fn message(alloc: Global, method: u32) -> Result<Place, AllocError>
    requires { method < library_methods }
    ensures { IfOk result (λ p. place p ≡ kernel.Field library.this_form 0 (method_site method)) }
{
    Ok(field(boxed(alloc, this())?, 0, site_of(method)))
}

/// The constructor with a message.
pub fn throwable_with_message(alloc: Global) -> Result<Option<Body>, AllocError>
    ensures { IfOk result (λ b. option_map body_of b ≡ library.throwable_with_message) }
{
    let value = boxed(alloc, other())?;
    let kept = set(message(alloc, 3)?, value, site_of(3));
    let parts = alone(alloc, statement(3, 6, evaluated(kept)))?;
    let m = local(alloc, 3, "m", STRING)?;
    body(alloc, 3, 5, THROWABLE, Some(m), parts)
}

/// `getMessage`
pub fn get_message(alloc: Global) -> Result<Option<Body>, AllocError>
    ensures { IfOk result (λ b. option_map body_of b ≡ library.get_message) }
{
    let value = read(message(alloc, 4)?);
    let parts = alone(alloc, statement(4, 8, returned(value)))?;
    body(alloc, 4, 7, THROWABLE, None, parts)
}

fn class_text(alloc: Global) -> Result<Expr, AllocError>
    ensures { IfOk result (λ e. expression e ≡ library.class_text) }
{
    on_this(alloc, LibOp::ClassText, site_of(5))
}

fn message_asked(alloc: Global) -> Result<StmtForm, AllocError>
    ensures { IfOk result (λ f. act f ≡ library.message_asked) }
{
    let args = Vec::new(alloc);
    let asked = call_on_this(alloc, CallForm::Chosen, 4, THROWABLE, args, site_of(5))?;
    let asked = boxed(alloc, asked)?;
    Ok(evaluated(set(form::local(1), asked, site_of(5))))
}

fn without_message(alloc: Global) -> Result<StmtForm, AllocError>
    ensures { IfOk result (λ f. act f ≡ library.without_message) }
{
    let left = boxed(alloc, other())?;
    let right = boxed(alloc, null())?;
    let yes = Box::new(alloc, statement(5, 12, returned(class_text(alloc)?)))?;
    Ok(guarded(equal(left, right, site_of(5)), yes))
}

// The class, `: ` and the message.
fn with_message(alloc: Global) -> Result<StmtForm, AllocError>
    ensures { IfOk result (λ f. act f ≡ library.with_message) }
{
    let class = boxed(alloc, class_text(alloc)?)?;
    let colon = boxed(alloc, text(0))?;
    let front = boxed(alloc, join(class, colon, site_of(5)))?;
    let message = boxed(alloc, other())?;
    Ok(returned(join(front, message, site_of(5))))
}

/// `toString`
pub fn throwable_to_string(alloc: Global) -> Result<Option<Body>, AllocError>
    ensures { IfOk result (λ b. option_map body_of b ≡ library.throwable_to_string) }
{
    let mut parts = alone(alloc, statement(5, 10, message_asked(alloc)?))?;
    parts.push(reaching(5, 11, 9, without_message(alloc)?))?;
    parts.push(statement(5, 13, with_message(alloc)?))?;
    let kept = local(alloc, 5, "text", STRING)?;
    body(alloc, 5, 9, THROWABLE, Some(kept), parts)
}
