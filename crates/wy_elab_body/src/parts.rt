//! What statements make of the expressions in them (JLS 14.8, 14.9, 14.12 to 14.14, 14.17, 14.18).

ghost use Rattle.std.specs.Prelude.{◌≡◌, map, option_map};
ghost use Rattle.wy_elab_expr.specs.Views.{GetsTo, Judged, inner_of, meaning_of, printed_of, stream_of};
ghost use Rattle.wy_elab_body.specs.Parts.{condition, ends_line, evaluated, is_output, is_output_call, is_throwable, performed, print_of, printing, returned, returned_as, thrown};
ghost use Rattle.wy_elab_body.specs.Views.{outcome_of};
ghost use Rattle.wy_table.specs.ClassTable.{table_of};
ghost use Rattle.wy_kernel.specs.View.{act, expression as kernel_expression};
ghost use Rattle.wy_syntax.specs.Syntax as source;
ghost use Rattle.wy_syntax.specs.View.{expression_of, row_of};

use crate::around::Outcome;
use crate::leaf::refused;
use std::alloc::Global;
use wy_constant::{Rule, Scope, TypeError};
use wy_elab_expr::{
    Meaning, Printed, Stream, Texts, brought, brought_in, class, elaborated, elaborated_all,
    formed, is_assignable, is_below, is_boolean, is_void, primitive, print_operand, stream_in,
    type_of,
};
use wy_kernel::builtin::THROWABLE;
use wy_kernel::form::{Expr, StmtForm};
use wy_kernel::operator::Primitive;
use wy_kernel::types::Ty;
use wy_syntax::expression::Expression;
use wy_table::table::ClassTable;

/// The test of a statement with this site.
#[tactic(auto, unfolding(crate::specs::Parts::condition))]
pub fn condition(
    alloc: Global,
    table: &ClassTable,
    scope: &Scope,
    texts: &mut Texts,
    test: &Expression,
    site: u32,
) -> Result<Box<Expr>, TypeError>
    ensures { Judged (table_of table.now) (λ j. GetsTo inner_of result texts.new
        (condition j (table_of table.now) (expression_of test.now) site scope.now texts.old)) }
{
    let m = elaborated(alloc, table, scope, texts, test)?;
    if is_boolean(type_of(&m)) {
        brought_in(alloc, texts, primitive(Primitive::Bool), m)
    } else {
        Err(refused(Rule::BadOperand, site))
    }
}

#[tactic(auto, using(wy_kernel::proofs::Views::view_eval))]
fn evaluated(
    alloc: Global,
    table: &ClassTable,
    scope: &Scope,
    texts: &mut Texts,
    e: &Expression,
) -> Result<StmtForm, TypeError>
    ensures { Judged (table_of table.now) (λ j. GetsTo act result texts.new
        (evaluated j (table_of table.now) scope.now (expression_of e.now) texts.old)) }
{
    let m = elaborated(alloc, table, scope, texts, e)?;
    let value = formed(alloc, texts, m)?;
    Ok(StmtForm::Eval { value })
}

fn ends_line(name: &str) -> bool
    ensures { result ≡ ends_line name.now }
{
    name == "println"
}

#[tactic(auto, using(wy_kernel::proofs::Views::view_print))]
fn print_of(name: &str, token: u32, p: Option<Printed>) -> StmtForm
    ensures { act result ≡ print_of name.now token (option_map printed_of p) }
{
    match p {
        Some(p) => StmtForm::Print {
            operand: Some(p.form),
            ty: p.ty,
            ends_line: ends_line(name),
            site: token,
        },
        None => StmtForm::Print {
            operand: None,
            ty: Ty::Void,
            ends_line: ends_line(name),
            site: token,
        },
    }
}

fn is_output(stream: Option<Stream>) -> bool
    ensures { result ≡ is_output (option_map stream_of stream) }
{
    match stream {
        Some(Stream::Output) => true,
        Some(Stream::Input) => false,
        None => false,
    }
}

#[tactic(auto, unfolding(crate::specs::Parts::is_output_call), using(wy_syntax::proofs::ExpressionViews::view_invoke_on))]
fn is_output_call(table: &ClassTable, scope: &Scope, e: &Expression) -> bool
    ensures { result ≡ is_output_call (table_of table.now) scope.now (expression_of e.now) }
{
    match e {
        Expression::InvokeOn {
            object,
            name: _,
            args: _,
            token: _,
        } => is_output(stream_in(table, scope, object)),
        _ => false,
    }
}

#[tactic(auto, unfolding(crate::specs::Parts::printing))]
fn printed_with(
    alloc: Global,
    table: &ClassTable,
    scope: &Scope,
    texts: &mut Texts,
    name: &str,
    args: &[Expression],
    token: u32,
) -> Result<StmtForm, TypeError>
    ensures { (object : source.Expression) → Judged (table_of table.now) (λ j.
        GetsTo act result texts.new (printing j (table_of table.now) scope.now
        (source.InvokeOn object name.now (row_of (map expression_of args.now)) token) texts.old)) }
{
    let ms = elaborated_all(alloc, table, scope, texts, args)?;
    let p = print_operand(alloc, texts, name, ms, token)?;
    Ok(print_of(name, token, p))
}

#[tactic(auto, using(wy_syntax::proofs::ExpressionViews::view_invoke_on))]
fn printing(
    alloc: Global,
    table: &ClassTable,
    scope: &Scope,
    texts: &mut Texts,
    e: &Expression,
) -> Result<StmtForm, TypeError>
    ensures { Judged (table_of table.now) (λ j. GetsTo act result texts.new
        (printing j (table_of table.now) scope.now (expression_of e.now) texts.old)) }
{
    match e {
        Expression::InvokeOn {
            object: _,
            name,
            args,
            token,
        } => printed_with(
            alloc,
            table,
            scope,
            texts,
            name.as_str(),
            args.as_slice(),
            *token,
        ),
        _ => Err(TypeError::NoMemory),
    }
}

/// What an expression that is a statement does.
#[tactic(auto, unfolding(crate::specs::Parts::performed))]
pub fn performed(
    alloc: Global,
    table: &ClassTable,
    scope: &Scope,
    texts: &mut Texts,
    e: &Expression,
) -> Result<StmtForm, TypeError>
    ensures { Judged (table_of table.now) (λ j. GetsTo act result texts.new
        (performed j (table_of table.now) (expression_of e.now) scope.now texts.old)) }
{
    if is_output_call(table, scope, e) {
        printing(alloc, table, scope, texts, e)
    } else {
        evaluated(alloc, table, scope, texts, e)
    }
}

fn returned_as(
    alloc: Global,
    table: &ClassTable,
    texts: &mut Texts,
    outcome: Outcome,
    m: Meaning,
    token: u32,
) -> Result<Expr, TypeError>
    ensures { Judged (table_of table.now) (λ j. GetsTo kernel_expression result texts.new
        (returned_as j (outcome_of outcome) (meaning_of m) token texts.old)) }
{
    match outcome {
        Outcome::ValueOf(ty) => {
            if is_void(type_of(&m)) {
                Err(refused(Rule::BadOperand, token))
            } else if is_assignable(table, ty, &m) {
                brought(alloc, texts, ty, m)
            } else {
                Err(refused(Rule::BadReturn, token))
            }
        }
        Outcome::NoValue => Err(refused(Rule::BadReturn, token)),
        Outcome::NoReturn => Err(refused(Rule::BadReturn, token)),
    }
}

/// What a `return` gives back.
#[tactic(auto, unfolding(crate::specs::Parts::returned))]
pub fn returned(
    alloc: Global,
    table: &ClassTable,
    scope: &Scope,
    texts: &mut Texts,
    outcome: Outcome,
    value: &Expression,
    token: u32,
) -> Result<Expr, TypeError>
    ensures { Judged (table_of table.now) (λ j.
        GetsTo kernel_expression result texts.new (returned j (table_of table.now)
        (outcome_of outcome) (expression_of value.now) token scope.now texts.old)) }
{
    let m = elaborated(alloc, table, scope, texts, value)?;
    returned_as(alloc, table, texts, outcome, m, token)
}

/// Whether a class is Throwable or below it.
pub fn is_throwable(table: &ClassTable, class_number: u32) -> bool
    ensures { Judged (table_of table.now) (λ j. result ≡ is_throwable j class_number) }
{
    is_below(table, class(class_number), class(THROWABLE))
}

/// The object that is thrown.
#[tactic(auto, unfolding(crate::specs::Parts::thrown))]
pub fn thrown(
    alloc: Global,
    table: &ClassTable,
    scope: &Scope,
    texts: &mut Texts,
    value: &Expression,
    token: u32,
) -> Result<Expr, TypeError>
    ensures { Judged (table_of table.now) (λ j. GetsTo kernel_expression result texts.new
        (thrown j (table_of table.now) (expression_of value.now) token scope.now texts.old)) }
{
    let m = elaborated(alloc, table, scope, texts, value)?;
    if is_below(table, type_of(&m), class(THROWABLE)) {
        formed(alloc, texts, m)
    } else {
        Err(refused(Rule::BadOperand, token))
    }
}
