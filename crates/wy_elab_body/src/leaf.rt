//! Statements that hold no other statement: empty ones, jumps, `return` and `throw` (JLS 14.6, 14.15 to 14.18).

ghost use Rattle.std.specs.Prelude.{◌≡◌, true, None, option_map};
ghost use Rattle.wy_elab_body.specs.Statements.{Setting as PlainSetting, jumping, plain, returning, statement as plain_statement};
ghost use Rattle.wy_elab_body.specs.Views.{IsSetting, MakesTo, around_of, making_of};
ghost use Rattle.wy_kernel.specs.Form as kernel;
ghost use Rattle.wy_kernel.specs.View.{statement};
ghost use Rattle.wy_syntax.specs.Syntax as source;
ghost use Rattle.wy_syntax.specs.View.{expression_of};

use crate::around::{Around, Outcome};
use crate::found::{returned, thrown};
use crate::make;
use crate::making::Making;
use crate::setting::Setting;
use wy_constant::{Rule, TypeError};
use wy_elab_expr::Texts;
use wy_kernel::form::Stmt;
use wy_syntax::expression::Expression;

/// The refusal of a rule that is broken at a token.
pub fn refused(rule: Rule, token: u32) -> TypeError
    ensures { result ≡ TypeError.Broken rule token }
{
    TypeError::Broken { rule, token }
}

/// `;`
pub fn empty(setting: &Setting, token: u32) -> Stmt
    ensures { (w : PlainSetting) → IsSetting setting.now w
        → statement result ≡ plain w token true (kernel.Block kernel.done) }
{
    make::plain(setting, token, true, make::block(Vec::new(setting.alloc)))
}

/// A jump to the end of a statement, if it has a target.
pub fn jumping(
    setting: &Setting,
    making: &Making,
    texts: &Texts,
    target: Option<u32>,
    token: u32,
) -> Result<Stmt, TypeError>
    ensures { (w : PlainSetting) → IsSetting setting.now w → MakesTo statement result
        (making_of making.now texts.now) (jumping w target token (making_of making.now texts.now)) }
{
    match target {
        Some(target) => Ok(make::plain(setting, token, true, make::jump(target))),
        None => Err(refused(Rule::BadJump, token)),
    }
}

fn returning_nothing(
    setting: &Setting,
    around: &Around,
    making: &Making,
    texts: &Texts,
    token: u32,
) -> Result<Stmt, TypeError>
    ensures { (w : PlainSetting)
        → IsSetting setting.now w → MakesTo statement result (making_of making.now texts.now)
        (returning w (around_of around.now) None token (making_of making.now texts.now)) }
{
    match around.outcome {
        Outcome::NoValue => Ok(make::plain(setting, token, true, make::return_form(None))),
        Outcome::ValueOf(_) => Err(refused(Rule::BadReturn, token)),
        Outcome::NoReturn => Err(refused(Rule::BadReturn, token)),
    }
}

/// `return`, with a value or without one.
pub fn returning(
    setting: &Setting,
    around: &Around,
    making: &Making,
    texts: &mut Texts,
    value: &Option<Expression>,
    token: u32,
) -> Result<Stmt, TypeError>
    ensures { (w : PlainSetting) → IsSetting setting.now w → MakesTo statement result
        (making_of making.now texts.new) (returning w (around_of around.now)
        (option_map expression_of value.now) token (making_of making.now texts.old)) }
{
    match value {
        Some(value) => {
            let v = returned(setting, making, texts, around.outcome, value, token)?;
            Ok(make::plain(setting, token, true, make::return_form(Some(v))))
        }
        None => returning_nothing(setting, around, making, texts, token),
    }
}

/// `throw`
#[tactic(auto, unfolding(crate::specs::Statements::statement))]
pub fn throwing(
    setting: &Setting,
    around: &Around,
    making: &Making,
    texts: &mut Texts,
    value: &Expression,
    token: u32,
) -> Result<Stmt, TypeError>
    ensures { (w : PlainSetting) → IsSetting setting.now w → MakesTo statement result
        (making_of making.now texts.new) (plain_statement w (around_of around.now)
        (source.Throw (expression_of value.now) token) (making_of making.now texts.old)) }
{
    let v = thrown(setting, making, texts, value, token)?;
    Ok(make::plain(setting, token, true, make::throw(v)))
}
