//! Declarations of locals, and expressions that are statements (JLS 14.4, 14.8).

ghost use Rattle.std.specs.Prelude.{◌≡◌, Some, map};
ghost use Rattle.wy_elab_body.specs.Making.{each};
ghost use Rattle.wy_elab_body.specs.Statements.{Setting as PlainSetting, declarations, declarator, declared, effect, effects, for_init, given_first};
ghost use Rattle.wy_elab_body.specs.Views.{IsSetting, MakesTo, making_of, statements_seen};
ghost use Rattle.wy_kernel.specs.View.{statement};
ghost use Rattle.wy_syntax.specs.View.{declarator_of, effect_of, for_init_of, initial_of, named_of, statement_of, type_seen};

use crate::found::{give_constant, initialized, performed, type_written};
use crate::make::{evaluated_set, plain};
use crate::making::Making;
use crate::setting::Setting;
use wy_constant::TypeError;
use wy_elab_expr::{Texts, with_brackets};
use wy_kernel::form::{Place, Stmt, StmtForm};
use wy_kernel::types::Ty;
use wy_syntax::expression::Initial;
use wy_syntax::name::{Named, WrittenType};
use wy_syntax::statement::{Declarator, Effect, ForInit, Statement};

#[tactic(auto, using(wy_kernel::proofs::ExpressionViews::view_local))]
fn given_first(
    setting: &Setting,
    making: &mut Making,
    texts: &mut Texts,
    is_final: bool,
    ty: Ty,
    number: u32,
    name: &Named,
    initial: &Initial,
) -> Result<Stmt, TypeError>
    ensures { (w : PlainSetting) → IsSetting setting.now w → MakesTo statement result
        (making_of making.new texts.new) (given_first w is_final ty number (named_of name.now)
        (Some (initial_of initial.now)) (making_of making.old texts.old)) }
{
    let value = initialized(setting, making, texts, ty, initial, name.token)?;
    let value = Box::new(setting.alloc, value)?;
    give_constant(setting, making, texts, is_final, ty, initial)?;
    let place = Place::Local { index: number };
    let form = evaluated_set(setting.alloc, place, Box::into_inner(value), name.token)?;
    Ok(plain(setting, name.token, true, form))
}

#[tactic(auto, unfolding(crate::specs::Statements::declarator), using(wy_kernel::proofs::Views::view_declare))]
fn declarator(
    setting: &Setting,
    making: &mut Making,
    texts: &mut Texts,
    is_final: bool,
    ty: Ty,
    d: &Declarator,
) -> Result<Stmt, TypeError>
    ensures { (w : PlainSetting)
        → IsSetting setting.now w → MakesTo statement result (making_of making.new texts.new)
        (declarator w is_final ty (declarator_of d.now) (making_of making.old texts.old)) }
{
    let ty = with_brackets(ty, d.brackets)?;
    let is_fixed = is_final && d.initial.is_some();
    let number = making.declare(setting.alloc, &d.name, ty, is_fixed)?;
    match &d.initial {
        None => Ok(plain(
            setting,
            d.name.token,
            true,
            StmtForm::Declare { local: number },
        )),
        Some(initial) => {
            given_first(
                setting, making, texts, is_final, ty, number, &d.name, initial,
            )
        }
    }
}

/// What an expression that is a statement becomes.
#[tactic(auto, unfolding(crate::specs::Statements::effect))]
pub fn effect(
    setting: &Setting,
    making: &mut Making,
    texts: &mut Texts,
    e: &Effect,
) -> Result<Stmt, TypeError>
    ensures { (w : PlainSetting) → IsSetting setting.now w → MakesTo statement result (making_of
        making.new texts.new) (effect w (effect_of e.now) (making_of making.old texts.old)) }
{
    let form = performed(setting, making, texts, &e.value)?;
    Ok(plain(setting, e.token, true, form))
}

#[tactic(auto, using(crate::proofs::Each::begins))]
fn declarators(
    setting: &Setting,
    making: &mut Making,
    texts: &mut Texts,
    is_final: bool,
    ty: Ty,
    all: &[Declarator],
) -> Result<Vec<Stmt>, TypeError>
    ensures { (w : PlainSetting) → IsSetting setting.now w
        → MakesTo statements_seen result (making_of making.new texts.new) (each
        (declarator w is_final ty) (map declarator_of all.now) (making_of making.old texts.old)) }
{
    let mut made = Vec::new(setting.alloc);
    for d in all {
        let statement = declarator(setting, making, texts, is_final, ty, d)?;
        made.push(statement)?;
    }
    Ok(made)
}

/// The statements that a declaration is.
#[tactic(auto, unfolding(crate::specs::Statements::declarations))]
pub fn declarations(
    setting: &Setting,
    making: &mut Making,
    texts: &mut Texts,
    is_final: bool,
    ty: &WrittenType,
    all: &[Declarator],
) -> Result<Vec<Stmt>, TypeError>
    ensures { (w : PlainSetting) → IsSetting setting.now w
        → MakesTo statements_seen result (making_of making.new texts.new) (declarations w is_final
        (type_seen ty.now) (map declarator_of all.now) (making_of making.old texts.old)) }
{
    let ty = type_written(setting, making, texts, ty)?;
    declarators(setting, making, texts, is_final, ty, all)
}

/// The statements that expressions are, each one.
#[tactic(auto, using(crate::proofs::Each::begins))]
pub fn effects(
    setting: &Setting,
    making: &mut Making,
    texts: &mut Texts,
    all: &[Effect],
) -> Result<Vec<Stmt>, TypeError>
    ensures { (w : PlainSetting)
        → IsSetting setting.now w → MakesTo statements_seen result (making_of making.new texts.new)
        (effects w (map effect_of all.now) (making_of making.old texts.old)) }
{
    let mut made = Vec::new(setting.alloc);
    for e in all {
        let statement = effect(setting, making, texts, e)?;
        made.push(statement)?;
    }
    Ok(made)
}

/// The statements that a `for` begins with.
#[tactic(auto, unfolding(crate::specs::Statements::for_init))]
pub fn for_init(
    setting: &Setting,
    making: &mut Making,
    texts: &mut Texts,
    init: &ForInit,
) -> Result<Vec<Stmt>, TypeError>
    ensures { (w : PlainSetting)
        → IsSetting setting.now w → MakesTo statements_seen result (making_of making.new texts.new)
        (for_init w (for_init_of init.now) (making_of making.old texts.old)) }
{
    match init {
        ForInit::Nothing => Ok(Vec::new(setting.alloc)),
        ForInit::Declared {
            ty,
            is_final,
            declarators,
        } => declarations(
            setting,
            making,
            texts,
            *is_final,
            ty,
            declarators.as_slice(),
        ),
        ForInit::Effects { effects: all } => effects(setting, making, texts, all.as_slice()),
    }
}

/// The statements that a declaration in a block is.
#[tactic(auto, unfolding(crate::specs::Statements::declared), using(wy_syntax::proofs::StatementViews::view_declare))]
pub fn declared(
    setting: &Setting,
    making: &mut Making,
    texts: &mut Texts,
    s: &Statement,
) -> Result<Vec<Stmt>, TypeError>
    ensures { (w : PlainSetting)
        → IsSetting setting.now w → MakesTo statements_seen result (making_of making.new texts.new)
        (declared w (statement_of s.now) (making_of making.old texts.old)) }
{
    match s {
        Statement::Declare {
            is_final,
            ty,
            declarators,
        } => declarations(
            setting,
            making,
            texts,
            *is_final,
            ty,
            declarators.as_slice(),
        ),
        _ => Err(TypeError::NoMemory),
    }
}
