//! The bodies of methods and constructors (JLS 8.4.7, 8.8.7).

ghost use Rattle.std.specs.Prelude.{◌≡◌, ◌++◌, ℕ, IfOk, map, option_map, slice_get};
ghost use Rattle.std.specs.List.{position_from};
ghost use Rattle.wy_constant.specs.Fields.{superclass};
ghost use Rattle.wy_elab_body.specs.Bodies.{constructor_block, declared_type, fields_call, first_calls, implied, implied_constructor_block, implied_fields_call, implied_super_call, is_fields_unit, is_unit, method_block, no_call, or_object, outcome_of, own_call, parameter, parameters, superclass_of, written_super_call};
ghost use Rattle.wy_elab_body.specs.Places.{calls_superclass};
ghost use Rattle.wy_elab_body.specs.Statements.{Setting as PlainSetting, joined};
ghost use Rattle.wy_elab_body.specs.Views.{IsSetting, MakesTo, making_of, row_seen, statements_seen};
ghost use Rattle.wy_elab_body.specs.Views as seen;
ghost use Rattle.wy_table.specs.ClassTable.{table_of};
ghost use Rattle.wy_kernel.specs.Form as kernel;
ghost use Rattle.wy_kernel.specs.View.{act, expression, method_of, statement};
ghost use Rattle.wy_syntax.specs.View.{block_of, class_of, header_of, own_call_of, parameter_of, statement_of, statements_of, type_seen};
ghost use Rattle.wy_syntax.specs.View as source;

use crate::around::{Around, Outcome};
use crate::calls::{constructor_call, constructor_called, object_called};
use crate::class_places::{calls_superclass, has_fields_unit};
use crate::found::type_written;
use crate::make::{self, plain};
use crate::making::Making;
use crate::on_this::{call_on_this, null};
use crate::place::Role;
use crate::setting::Setting;
use crate::statement::{block, statements};
use std::alloc::{AllocError, Global};
use wy_constant::{TypeError, class_above};
use wy_elab_expr::{Texts, with_brackets};
use wy_kernel::form::{CallForm, Expr, Stmt, StmtForm};
use wy_kernel::types::{Method, MethodForm, NONE, Ty};
use wy_syntax::declaration::{ClassSyntax, Header, Outcome as Written, OwnCall, Parameter};
use wy_syntax::name::WrittenType;
use wy_syntax::statement::{Block, Statement};
use wy_table::table::ClassTable;

/// A statement that stands for no words of its own.
#[tactic(auto, using(wy_kernel::proofs::Views::view_statement))]
pub fn implied(setting: &Setting, site: u32, role: Role, form: StmtForm) -> Stmt
    ensures { (w : PlainSetting) → IsSetting setting.now w
        → statement result ≡ implied w site role (act form) }
{
    Stmt {
        number: setting.number_of(site, role),
        site,
        askable: false,
        reach: NONE,
        form,
    }
}

/// The type of a parameter, a field or a result, with the pairs behind its name.
pub fn declared_type(
    setting: &Setting,
    making: &Making,
    texts: &mut Texts,
    ty: &WrittenType,
    brackets: u32,
) -> Result<Ty, TypeError>
    ensures { (w : PlainSetting)
        → IsSetting setting.now w → MakesTo (λ t. t) result (making_of making.now texts.new)
        (declared_type w (type_seen ty.now) brackets (making_of making.now texts.old)) }
{
    let base = type_written(setting, making, texts, ty)?;
    Ok(with_brackets(base, brackets)?)
}

fn parameter(
    setting: &Setting,
    making: &mut Making,
    texts: &mut Texts,
    p: &Parameter,
) -> Result<u32, TypeError>
    ensures { (w : PlainSetting) → IsSetting setting.now w → MakesTo (λ k. k) result (making_of
        making.new texts.new) (parameter w (parameter_of p.now) (making_of making.old texts.old)) }
{
    let ty = declared_type(setting, making, texts, &p.ty, p.brackets)?;
    making.declare(setting.alloc, &p.name, ty, false)
}

/// Declares the parameters of a method.
#[tactic(auto, unfolding(crate::specs::Bodies::parameters))]
fn parameters(
    setting: &Setting,
    making: &mut Making,
    texts: &mut Texts,
    all: &[Parameter],
) -> Result<(), TypeError>
    ensures { (w : PlainSetting)
        → IsSetting setting.now w → MakesTo (λ u. u) result (making_of making.new texts.new)
        (parameters w (map parameter_of all.now) (making_of making.old texts.old)) }
{
    for p in all {
        parameter(setting, making, texts, p)?;
    }
    Ok(())
}

fn outcome_of(
    setting: &Setting,
    making: &Making,
    texts: &mut Texts,
    written: &Written,
) -> Result<Outcome, TypeError>
    ensures { (w : PlainSetting)
        → IsSetting setting.now w → MakesTo seen.outcome_of result (making_of making.now texts.new)
        (outcome_of w (source.outcome_of written.now) (making_of making.now texts.old)) }
{
    match written {
        Written::Nothing => Ok(Outcome::NoValue),
        Written::Value(ty) => Ok(Outcome::ValueOf(declared_type(setting, making, texts, ty, 0)?)),
    }
}

/// The block of a method.
#[tactic(auto, unfolding(crate::specs::Bodies::method_block), using(wy_syntax::proofs::StatementViews::view_braced))]
pub fn method_block(
    setting: &Setting,
    making: &mut Making,
    texts: &mut Texts,
    header: &Header,
    written: &Written,
    b: &Block,
) -> Result<Stmt, TypeError>
    ensures { (w : PlainSetting) → IsSetting setting.now w → MakesTo statement result
        (making_of making.new texts.new) (method_block w (header_of header.now)
        (source.outcome_of written.now) (block_of b.now) (making_of making.old texts.old)) }
{
    let outcome = outcome_of(setting, making, texts, written)?;
    parameters(setting, making, texts, header.params.as_slice())?;
    let around = Around::alone(setting.alloc, setting.number(b.brace), outcome);
    block(setting, &around, making, texts, b)
}

// Whether the constructors of a class call one of its superclass.
fn has_super_call(setting: &Setting, class: u32) -> bool
    ensures { (w : PlainSetting) → IsSetting setting.now w
        → result ≡ calls_superclass w.table class }
{
    calls_superclass(setting.table, class)
}

fn above_in(table: &ClassTable, class: u32) -> u32
    ensures { result ≡ or_object (superclass (slice_get (table_of table.now).classes class)) }
{
    match class_above(table, class) {
        Some(above) => above,
        None => 0,
    }
}

// The number of the superclass of a class, or of Object.
fn superclass_of(setting: &Setting, class: u32) -> u32
    ensures { (w : PlainSetting) → IsSetting setting.now w → result ≡ superclass_of w class }
{
    above_in(setting.table, class)
}

#[tactic(auto, unfolding(crate::specs::Bodies::implied_super_call))]
fn implied_super_call(
    setting: &Setting,
    making: &Making,
    texts: &mut Texts,
    class: u32,
    site: u32,
) -> Result<Vec<Stmt>, TypeError>
    ensures { (w : PlainSetting)
        → IsSetting setting.now w → MakesTo statements_seen result (making_of making.now texts.new)
        (implied_super_call w class site (making_of making.now texts.old)) }
{
    if !has_super_call(setting, class) {
        return Ok(Vec::new(setting.alloc));
    }
    let above = superclass_of(setting, class);
    let value = constructor_called(setting, making, texts, above, site)?;
    let call = implied(setting, site, Role::SuperCall, evaluated(value));
    Ok(vec![in setting.alloc; call]?)
}

#[tactic(auto, using(wy_kernel::proofs::Views::view_eval))]
fn evaluated(value: Expr) -> StmtForm
    ensures { act result ≡ kernel.Eval (expression value) }
{
    StmtForm::Eval { value }
}

fn is_fields_unit(method: &Method, class: u32) -> bool
    ensures { result ≡ is_fields_unit class (method_of method.now) }
{
    method.class == class && is_unit(method.form)
}

fn is_unit(form: MethodForm) -> bool
    ensures { result ≡ is_unit form }
{
    match form {
        MethodForm::Fields => true,
        MethodForm::Static => false,
        MethodForm::Instance => false,
        MethodForm::Constructor => false,
    }
}

// The number of `<fields>` of a class.
#[tactic(auto, using(wy_constant::proofs::Found::position_here, wy_constant::proofs::Found::position_further, wy_constant::proofs::Found::position_nowhere))]
fn fields_unit(table: &ClassTable, class: u32) -> Option<u32>
    ensures { result ≡ position_from (is_fields_unit class) 0 (table_of table.now).methods }
{
    for k in 0..table.methods() {
        if is_fields_unit(table.method(k), class) {
            return Some(k);
        }
    }
    None
}

#[tactic(auto, using(wy_kernel::proofs::ExpressionViews::view_read, wy_kernel::proofs::ExpressionViews::view_local, wy_elab_expr::proofs::KernelViews::view_call_on, wy_kernel::proofs::ExpressionViews::view_const))]
fn fields_call(alloc: Global, unit: Option<u32>, class: u32, site: u32) -> Result<Expr, AllocError>
    ensures { IfOk result (λ e. expression e ≡ fields_call unit class site) }
{
    match unit {
        Some(k) => call_on_this(alloc, CallForm::Direct, k, class, Vec::new(alloc), site),
        None => Ok(null()),
    }
}

// The call of `<fields>`, if the class has it.
#[tactic(auto, unfolding(crate::specs::Bodies::implied_fields_call))]
fn implied_fields_call(
    setting: &Setting,
    number: u32,
    class: &ClassSyntax,
    site: u32,
) -> Result<Vec<Stmt>, AllocError>
    ensures { (w : PlainSetting) → IsSetting setting.now w → IfOk result (λ all.
        statements_seen all ≡ implied_fields_call w number (class_of class.now) site) }
{
    if !has_fields_unit(class) {
        return Ok(Vec::new(setting.alloc));
    }
    let unit = fields_unit(setting.table, number);
    let value = fields_call(setting.alloc, unit, number, site)?;
    let call = implied(setting, site, Role::FieldsCall, evaluated(value));
    Ok(vec![in setting.alloc; call]?)
}

#[tactic(auto, unfolding(crate::specs::Bodies::own_call))]
fn own_call(
    setting: &Setting,
    making: &Making,
    texts: &mut Texts,
    class: u32,
    call: &OwnCall,
) -> Result<Vec<Stmt>, TypeError>
    ensures { (w : PlainSetting) (c : ℕ)
        → IsSetting setting.now w → MakesTo statements_seen result (making_of making.now texts.new)
        (own_call w c class (own_call_of call.now) (making_of making.now texts.old)) }
{
    let value = constructor_call(
        setting,
        making,
        texts,
        class,
        call.args.as_slice(),
        call.paren,
    )?;
    let made = plain(setting, call.token, true, evaluated(value));
    Ok(vec![in setting.alloc; made]?)
}

#[tactic(auto, unfolding(crate::specs::Bodies::no_call))]
fn no_call(
    setting: &Setting,
    making: &Making,
    texts: &mut Texts,
    call: &OwnCall,
) -> Result<Vec<Stmt>, TypeError>
    ensures { (w : PlainSetting)
        → IsSetting setting.now w → MakesTo statements_seen result (making_of making.now texts.new)
        (no_call w (own_call_of call.now) (making_of making.now texts.old)) }
{
    object_called(setting, making, texts, call.args.as_slice(), call.paren)?;
    Ok(Vec::new(setting.alloc))
}

#[tactic(auto, unfolding(crate::specs::Bodies::written_super_call))]
fn written_super_call(
    setting: &Setting,
    making: &Making,
    texts: &mut Texts,
    class: u32,
    call: &OwnCall,
) -> Result<Vec<Stmt>, TypeError>
    ensures { (w : PlainSetting)
        → IsSetting setting.now w → MakesTo statements_seen result (making_of making.now texts.new)
        (written_super_call w class (own_call_of call.now) (making_of making.now texts.old)) }
{
    if has_super_call(setting, class) {
        let above = superclass_of(setting, class);
        own_call(setting, making, texts, above, call)
    } else {
        no_call(setting, making, texts, call)
    }
}

// Statements, and others behind them.
fn both(mut front: Vec<Stmt>, mut rest: Vec<Stmt>) -> Result<Vec<Stmt>, AllocError>
    ensures { IfOk result (λ all.
        statements_seen all ≡ statements_seen front ++ statements_seen rest) }
{
    front.append(&mut rest)?;
    Ok(front)
}

/// What a constructor begins with, by the site of its name.
#[tactic(auto, unfolding(crate::specs::Bodies::first_calls))]
fn first_calls(
    setting: &Setting,
    making: &Making,
    texts: &mut Texts,
    number: u32,
    class: &ClassSyntax,
    site: u32,
    own: &Option<OwnCall>,
) -> Result<Vec<Stmt>, TypeError>
    ensures { (w : PlainSetting) → IsSetting setting.now w → MakesTo statements_seen result
        (making_of making.now texts.new) (first_calls w number (class_of class.now) site
        (option_map own_call_of own.now) (making_of making.now texts.old)) }
{
    let front = match own {
        None => implied_super_call(setting, making, texts, number, site)?,
        Some(call) => {
            if !call.is_super {
                return own_call(setting, making, texts, number, call);
            }
            written_super_call(setting, making, texts, number, call)?
        }
    };
    Ok(both(front, implied_fields_call(setting, number, class, site)?)?)
}

fn joined(front: Vec<Stmt>, rest: Vec<Stmt>) -> Result<Vec<Stmt>, AllocError>
    ensures { IfOk result (λ all. row_seen all ≡ joined (statements_seen front) (row_seen rest)) }
{
    let all = both(front, rest)?;
    Ok(all)
}

/// The block of a constructor.
#[tactic(auto, unfolding(crate::specs::Bodies::constructor_block))]
pub fn constructor_block(
    setting: &Setting,
    making: &mut Making,
    texts: &mut Texts,
    number: u32,
    class: &ClassSyntax,
    header: &Header,
    own: &Option<OwnCall>,
    brace: u32,
    parts: &[Statement],
) -> Result<Stmt, TypeError>
    ensures { (w : PlainSetting) → IsSetting setting.now w
        → MakesTo statement result (making_of making.new texts.new) (constructor_block w number
        (class_of class.now) (header_of header.now) (option_map own_call_of own.now) brace
        (statements_of (map statement_of parts.now)) (making_of making.old texts.old)) }
{
    parameters(setting, making, texts, header.params.as_slice())?;
    let site = header.name.token;
    let calls = first_calls(setting, making, texts, number, class, site, own)?;
    let block = setting.number(brace);
    let around = Around::alone(setting.alloc, block, Outcome::NoValue).inside(block)?;
    let rest = statements(setting, &around, making, texts, parts)?;
    let all = joined(calls, rest)?;
    Ok(plain(setting, brace, false, make::block(all)))
}

/// The block of the constructor of a class that declares none (JLS 8.8.9).
#[tactic(auto, unfolding(crate::specs::Bodies::implied_constructor_block), using(crate::proofs::Blocks::row_is))]
pub fn implied_constructor_block(
    setting: &Setting,
    making: &Making,
    texts: &mut Texts,
    number: u32,
    class: &ClassSyntax,
) -> Result<Stmt, TypeError>
    ensures { (w : PlainSetting)
        → IsSetting setting.now w → MakesTo statement result (making_of making.now texts.new)
        (implied_constructor_block w number (class_of class.now) (making_of making.now texts.old)) }
{
    let site = class.name.token;
    let calls = first_calls(setting, making, texts, number, class, site, &None)?;
    Ok(implied(setting, site, Role::ConstructorBody, make::block(calls)))
}
