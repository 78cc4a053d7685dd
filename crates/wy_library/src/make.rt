//! The statements and the bodies of the library's methods: all their sites are that of the method.

ghost use Rattle.std.specs.Prelude.{◌≡◌, ◌<◌, false, [], ◌∷◌, IfOk, codes, map, option_map};
ghost use Rattle.std.specs.Option.{option_to_list};
ghost use Rattle.wy_kernel.specs.Builtin.{method_site};
ghost use Rattle.wy_kernel.specs.Form as kernel;
ghost use Rattle.wy_kernel.specs.View.{act, body_of, expression, local_of, statement, statements_of};
ghost use Rattle.wy_library.specs.Library as library;
ghost use Rattle.wy_kernel.specs.Program.{library_methods};

use crate::form::class_type;
use std::alloc::{AllocError, Global};
use wy_kernel::form::{Body, Expr, Stmt, StmtForm};
use wy_kernel::types::{Local, NONE};

pub fn site_of(method: u32) -> u32
    requires { method < library_methods }
    ensures { result ≡ method_site method }
{
    2147483648 + method
}

/// A statement whose test reaches to the end of the statement with the number `reach`.
#[tactic(auto, using(wy_kernel::proofs::Views::view_statement))]
pub fn reaching(method: u32, number: u32, reach: u32, form: StmtForm) -> Stmt
    requires { method < library_methods }
    ensures { statement result ≡ kernel.Stmt number (method_site method) false reach (act form) }
{
    Stmt {
        number,
        site: site_of(method),
        askable: false,
        reach,
        form,
    }
}

/// A statement without a test.
pub fn statement(method: u32, number: u32, form: StmtForm) -> Stmt
    requires { method < library_methods }
    ensures { statement result ≡ library.statement method number (act form) }
{
    reaching(method, number, NONE, form)
}

/// `return` with a value.
#[tactic(auto, using(wy_kernel::proofs::Views::view_return))]
pub fn returned(value: Expr) -> StmtForm
    ensures { act result ≡ kernel.Return (kernel.the (expression value)) }
{
    StmtForm::Return { value: Some(value) }
}

/// A statement that evaluates an expression.
#[tactic(auto, using(wy_kernel::proofs::Views::view_eval))]
pub fn evaluated(value: Expr) -> StmtForm
    ensures { act result ≡ kernel.Eval (expression value) }
{
    StmtForm::Eval { value }
}

/// An `if` without `else`.
#[tactic(auto, using(crate::proofs::FormViews::view_guard))]
pub fn guarded(test: Expr, yes: Box<Stmt>) -> StmtForm
    ensures { act result ≡ kernel.If (expression test) (statement yes.value) kernel.nothing }
{
    StmtForm::If {
        test,
        yes,
        no: None,
    }
}

/// One statement alone.
pub fn alone(alloc: Global, part: Stmt) -> Result<Vec<Stmt>, AllocError>
    ensures { IfOk result (λ parts. parts.items ≡ part ∷ []) }
{
    let mut parts = Vec::new(alloc);
    parts.push(part)?;
    Ok(parts)
}

/// A local of a method, of a class of the library.
pub fn local(alloc: Global, method: u32, name: &str, class: u32) -> Result<Local, AllocError>
    requires { method < library_methods }
    ensures { IfOk result (λ l. local_of l ≡ library.library_local method name.now class) }
{
    Ok(Local {
        name: name.to_string(alloc)?,
        site: site_of(method),
        ty: class_type(class),
    })
}

fn locals(
    alloc: Global,
    method: u32,
    class: u32,
    other: Option<Local>,
) -> Result<Vec<Local>, AllocError>
    requires { method < library_methods }
    ensures { IfOk result (λ v. map local_of v.items ≡ library.library_local method
        (codes "this") class ∷ map local_of (option_to_list other)) }
{
    let this = local(alloc, method, "this", class)?;
    match other {
        Some(second) => Ok(vec![in alloc; this, second]?),
        None => Ok(vec![in alloc; this]?),
    }
}

#[tactic(auto, using(wy_kernel::proofs::Views::view_block))]
fn block(method: u32, number: u32, parts: Vec<Stmt>) -> Stmt
    requires { method < library_methods }
    ensures { statement result ≡ library.statement method number
        (kernel.Block (statements_of (map statement parts.items))) }
{
    statement(method, number, StmtForm::Block { parts })
}

/// A body of a class's method by the numbers of the method and of the block, with one local beside `this` or none.
pub fn body(
    alloc: Global,
    method: u32,
    number: u32,
    class: u32,
    other: Option<Local>,
    parts: Vec<Stmt>,
) -> Result<Option<Body>, AllocError>
    requires { method < library_methods }
    ensures { IfOk result (λ b. option_map body_of b ≡ library.body_of method number class
        (map local_of (option_to_list other)) (statements_of (map statement parts.items))) }
{
    let locals = locals(alloc, method, class, other)?;
    Ok(Some(Body {
        block: block(method, number, parts),
        locals,
        end: site_of(method),
    }))
}
