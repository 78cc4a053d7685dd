//! Source statements become kernel statements, form by form (JLS 14).

ghost use Rattle.std.specs.Prelude.{◌≡◌, IfOk, map, option_map};
ghost use Rattle.wy_elab_body.specs.Statements.{Setting as PlainSetting, block, clause as plain_clause, clauses, in_first_block, last_block, other_statement, several, statement as plain_statement, statements, tested};
ghost use Rattle.wy_elab_body.specs.Views.{IsSetting, MakesTo, around_of, clause_seen, clauses_seen, inner_test, last_seen, making_of, row_seen, statements_seen};
ghost use Rattle.wy_kernel.specs.Subtyping.{class_type};
ghost use Rattle.wy_kernel.specs.View.{other, statement, test_of};
ghost use Rattle.wy_syntax.specs.Syntax as source;
ghost use Rattle.wy_syntax.specs.View.{block_of, clause_of, clauses_of, effect_of, expression_of, for_init_of, named_of, other_body_of, statement_of, statements_of};

use crate::around::Around;
use crate::declare::{declared, effect, effects, for_init};
use crate::found::{caught_class, condition, must_be_throwable};
use crate::leaf::{empty, jumping, refused, returning, throwing};
use crate::make;
use crate::making::Making;
use crate::setting::Setting;
use crate::site::{body_of_loop, is_declaration, number_of_body, site_of};
use std::alloc::AllocError;
use wy_constant::{Rule, TypeError};
use wy_elab_expr::Texts;
use wy_kernel::form::{Catch as KernelCatch, Expr, Stmt};
use wy_kernel::types::{Base, Ty};
use wy_syntax::expression::Expression;
use wy_syntax::name::Named;
use wy_syntax::statement::{Block, Catch, Effect, ForInit, Statement};

/// A statement that is no declaration.
#[cycle(statement)]
#[tactic(auto, unfolding(crate::specs::Statements::statement), using(wy_syntax::proofs::StatementViews::view_block, wy_syntax::proofs::StatementViews::view_empty, wy_syntax::proofs::StatementViews::view_declare, wy_syntax::proofs::StatementViews::view_effect, wy_syntax::proofs::StatementViews::view_if, wy_syntax::proofs::StatementViews::view_while, wy_syntax::proofs::StatementViews::view_do, wy_syntax::proofs::StatementViews::view_for, wy_syntax::proofs::StatementViews::view_labelled, wy_syntax::proofs::StatementViews::view_break, wy_syntax::proofs::StatementViews::view_continue, wy_syntax::proofs::StatementViews::view_return, wy_syntax::proofs::StatementViews::view_throw, wy_syntax::proofs::StatementViews::view_try, wy_syntax::proofs::StatementViews::view_wrong, crate::proofs::Sizes::of_block, crate::proofs::Sizes::of_if, crate::proofs::Sizes::of_while, crate::proofs::Sizes::of_do, crate::proofs::Sizes::of_for, crate::proofs::Sizes::of_labelled, crate::proofs::Sizes::of_try))]
pub fn statement(
    setting: &Setting,
    around: &Around,
    making: &mut Making,
    texts: &mut Texts,
    s: &Statement,
) -> Result<Stmt, TypeError>
    ensures { (w : PlainSetting) → IsSetting setting.now w
        → MakesTo statement result (making_of making.new texts.new) (plain_statement w
        (around_of around.now) (statement_of s.now) (making_of making.old texts.old)) }
{
    match s {
        Statement::Block { block: b } => block(setting, around, making, texts, b),
        Statement::Empty { token } => Ok(empty(setting, *token)),
        Statement::Declare {
            is_final: _,
            ty: _,
            declarators: _,
        } => Err(refused(Rule::BadOperand, 0)),
        Statement::Effect { effect: e } => effect(setting, making, texts, e),
        Statement::If {
            test,
            main,
            other,
            token,
        } => if_statement(setting, around, making, texts, test, main, other, *token),
        Statement::While { test, body, token } => {
            while_statement(setting, around, making, texts, test, body, *token)
        }
        Statement::Do { body, test, token } => {
            do_statement(setting, around, making, texts, body, test, *token)
        }
        Statement::For {
            init,
            test,
            updates,
            body,
            token,
        } => for_statement(
            setting,
            around,
            making,
            texts,
            init,
            test,
            updates.as_slice(),
            body,
            *token,
        ),
        Statement::Labelled { name, body } => {
            labelled(setting, around, making, texts, name, body)
        }
        Statement::Break { label, token } => {
            jumping(setting, making, texts, around.break_target(label), *token)
        }
        Statement::Continue { label, token } => {
            jumping(
                setting,
                making,
                texts,
                around.continue_target(label),
                *token,
            )
        }
        Statement::Return { value, token } => {
            returning(setting, around, making, texts, value, *token)
        }
        Statement::Throw { value, token } => {
            throwing(setting, around, making, texts, value, *token)
        }
        Statement::Try {
            main,
            catches,
            last,
            token,
        } => tried(
            setting,
            around,
            making,
            texts,
            main,
            catches.as_slice(),
            last,
            *token,
        ),
        Statement::Wrong => Err(refused(Rule::BadOperand, 0)),
    }
}

#[cycle(statement)]
#[tactic(auto, unfolding(crate::specs::Statements::statement))]
fn if_statement(
    setting: &Setting,
    around: &Around,
    making: &mut Making,
    texts: &mut Texts,
    test: &Expression,
    main: &Statement,
    other: &Option<Box<Statement>>,
    token: u32,
) -> Result<Stmt, TypeError>
    ensures { (w : PlainSetting)
        → IsSetting setting.now w → MakesTo statement result (making_of making.new texts.new)
        (plain_statement w (around_of around.now) (source.If (expression_of test.now)
        (statement_of main.now) (other_body_of other.now) token) (making_of making.old texts.old)) }
{
    let inner = around.inside(setting.number(token))?;
    let c = condition(setting, making, texts, test, token)?;
    let yes = statement(setting, &inner, making, texts, main)?;
    let yes = Box::new(setting.alloc, yes)?;
    let no = other_statement(setting, &inner, making, texts, other)?;
    let guarded = make::targets_in_arms(setting.alloc, around, &yes, &no)?;
    let form = make::if_form(setting.alloc, Box::into_inner(c), Box::into_inner(yes), no)?;
    Ok(make::testing(setting, around, token, guarded.as_slice(), form))
}

#[cycle(statement)]
#[tactic(auto, unfolding(crate::specs::Statements::statement))]
fn while_statement(
    setting: &Setting,
    around: &Around,
    making: &mut Making,
    texts: &mut Texts,
    test: &Expression,
    body: &Statement,
    token: u32,
) -> Result<Stmt, TypeError>
    ensures { (w : PlainSetting) → IsSetting setting.now w → MakesTo statement result
        (making_of making.new texts.new) (plain_statement w (around_of around.now) (source.While
        (expression_of test.now) (statement_of body.now) token) (making_of making.old texts.old)) }
{
    let inner = around.in_loop(setting.number(token), setting.number(site_of(body)))?;
    let c = condition(setting, making, texts, test, token)?;
    let x = statement(setting, &inner, making, texts, body)?;
    let x = Box::new(setting.alloc, x)?;
    let guarded = make::targets_in(setting.alloc, around, &x)?;
    let form = make::while_form(setting.alloc, Box::into_inner(c), Box::into_inner(x))?;
    Ok(make::testing(setting, around, token, guarded.as_slice(), form))
}

#[cycle(statement)]
#[tactic(auto, unfolding(crate::specs::Statements::statement))]
fn do_statement(
    setting: &Setting,
    around: &Around,
    making: &mut Making,
    texts: &mut Texts,
    body: &Statement,
    test: &Expression,
    token: u32,
) -> Result<Stmt, TypeError>
    ensures { (w : PlainSetting) → IsSetting setting.now w → MakesTo statement result
        (making_of making.new texts.new) (plain_statement w (around_of around.now) (source.Do
        (statement_of body.now) (expression_of test.now) token) (making_of making.old texts.old)) }
{
    let inner = around.in_loop(setting.number(token), setting.number(site_of(body)))?;
    let x = statement(setting, &inner, making, texts, body)?;
    let x = Box::new(setting.alloc, x)?;
    let c = condition(setting, making, texts, test, token)?;
    let guarded = make::targets_in(setting.alloc, around, &x)?;
    let form = make::do_form(setting.alloc, Box::into_inner(x), Box::into_inner(c))?;
    Ok(make::testing(setting, around, token, guarded.as_slice(), form))
}

#[cycle(statement)]
#[tactic(auto, unfolding(crate::specs::Statements::statement), using(crate::proofs::Sizes::of_other))]
fn other_statement(
    setting: &Setting,
    around: &Around,
    making: &mut Making,
    texts: &mut Texts,
    s: &Option<Box<Statement>>,
) -> Result<Option<Box<Stmt>>, TypeError>
    ensures { (w : PlainSetting) → IsSetting setting.now w
        → MakesTo other result (making_of making.new texts.new) (other_statement w
        (around_of around.now) (other_body_of s.now) (making_of making.old texts.old)) }
{
    match s {
        Some(s) => {
            let x = statement(setting, around, making, texts, s)?;
            Ok(Some(Box::new(setting.alloc, x)?))
        }
        None => Ok(None),
    }
}

/// A block.
#[cycle(statement)]
#[tactic(auto, unfolding(crate::specs::Statements::statement, crate::specs::Making::in_block), using(wy_syntax::proofs::StatementViews::view_braced, crate::proofs::Sizes::of_braces))]
pub fn block(
    setting: &Setting,
    around: &Around,
    making: &mut Making,
    texts: &mut Texts,
    b: &Block,
) -> Result<Stmt, TypeError>
    ensures { (w : PlainSetting)
        → IsSetting setting.now w → MakesTo statement result (making_of making.new texts.new)
        (block w (around_of around.now) (block_of b.now) (making_of making.old texts.old)) }
{
    let inner = around.inside(setting.number(b.brace))?;
    making.open_block(texts)?;
    let parts = statements(setting, &inner, making, texts, b.parts.as_slice())?;
    making.close_block(texts);
    Ok(make::plain(setting, b.brace, false, make::block(parts)))
}

#[cycle(statement)]
fn several(
    setting: &Setting,
    around: &Around,
    making: &mut Making,
    texts: &mut Texts,
    s: &Statement,
) -> Result<Vec<Stmt>, TypeError>
    ensures { (w : PlainSetting) → IsSetting setting.now w → MakesTo statements_seen result
        (making_of making.new texts.new) (several w (statement_of s.now) (plain_statement w
        (around_of around.now) (statement_of s.now)) (making_of making.old texts.old)) }
{
    if is_declaration(s) {
        return declared(setting, making, texts, s);
    }
    let x = statement(setting, around, making, texts, s)?;
    Ok(vec![in setting.alloc; x]?)
}

/// Statements in a block.
#[cycle(statement)]
#[tactic(auto, using(crate::proofs::Rows::begins, crate::proofs::Sizes::of_part))]
pub fn statements(
    setting: &Setting,
    around: &Around,
    making: &mut Making,
    texts: &mut Texts,
    parts: &[Statement],
) -> Result<Vec<Stmt>, TypeError>
    ensures { (w : PlainSetting) → IsSetting setting.now w → MakesTo row_seen result
        (making_of making.new texts.new) (statements w (around_of around.now)
        (statements_of (map statement_of parts.now)) (making_of making.old texts.old)) }
{
    let mut made = Vec::new(setting.alloc);
    for part in parts {
        let mut more = several(setting, around, making, texts, part)?;
        made.append(&mut more)?;
    }
    Ok(made)
}

#[cycle(statement)]
#[tactic(auto, unfolding(crate::specs::Statements::statement))]
fn labelled(
    setting: &Setting,
    around: &Around,
    making: &mut Making,
    texts: &mut Texts,
    name: &Named,
    body: &Statement,
) -> Result<Stmt, TypeError>
    ensures { (w : PlainSetting) → IsSetting setting.now w → MakesTo statement result
        (making_of making.new texts.new) (plain_statement w (around_of around.now) (source.Labelled
        (named_of name.now) (statement_of body.now)) (making_of making.old texts.old)) }
{
    if around.label(name.name.as_str()).is_some() {
        return Err(refused(Rule::Duplicate, name.token));
    }
    let loop_body = number_of_body(setting, body_of_loop(body));
    let number = setting.number(name.token);
    let inner = around.under_label(name.name.as_str(), number, loop_body)?;
    let x = statement(setting, &inner, making, texts, body)?;
    let form = make::labelled(setting.alloc, x)?;
    Ok(make::plain(setting, name.token, true, form))
}

#[cycle(statement)]
#[tactic(auto, unfolding(crate::specs::Statements::statement, crate::specs::Making::in_block))]
fn for_statement(
    setting: &Setting,
    around: &Around,
    making: &mut Making,
    texts: &mut Texts,
    init: &ForInit,
    test: &Option<Expression>,
    updates: &[Effect],
    body: &Statement,
    token: u32,
) -> Result<Stmt, TypeError>
    ensures { (w : PlainSetting) → IsSetting setting.now w → MakesTo statement result
        (making_of making.new texts.new) (plain_statement w (around_of around.now) (source.For
        (for_init_of init.now) (option_map expression_of test.now) (map effect_of updates.now)
        (statement_of body.now) token) (making_of making.old texts.old)) }
{
    let inner = around.in_loop(setting.number(token), setting.number(site_of(body)))?;
    making.open_block(texts)?;
    let inits = for_init(setting, making, texts, init)?;
    let c = tested(setting, making, texts, test, token)?;
    let us = effects(setting, making, texts, updates)?;
    let x = statement(setting, &inner, making, texts, body)?;
    making.close_block(texts);
    Ok(make::looping(setting, around, token, inits, unboxed(c), us, x)?)
}

#[cycle(statement)]
#[tactic(auto, unfolding(crate::specs::Statements::statement))]
fn tried(
    setting: &Setting,
    around: &Around,
    making: &mut Making,
    texts: &mut Texts,
    main: &Block,
    catches: &[Catch],
    last: &Option<Block>,
    token: u32,
) -> Result<Stmt, TypeError>
    ensures { (w : PlainSetting)
        → IsSetting setting.now w → MakesTo statement result (making_of making.new texts.new)
        (plain_statement w (around_of around.now) (source.Try (block_of main.now) (clauses_of
        (map clause_of catches.now)) (last_seen last.now) token) (making_of making.old texts.old)) }
{
    let number = setting.number(token);
    let guarded = in_first_block(around, number, catches)?;
    let inner = around.inside(number)?;
    let x = block(setting, &guarded, making, texts, main)?;
    let x = Box::new(setting.alloc, x)?;
    let cs = clauses(setting, &inner, making, texts, catches)?;
    let y = last_block(setting, &inner, making, texts, last)?;
    let form = make::try_form(setting.alloc, Box::into_inner(x), cs, y)?;
    Ok(make::plain(setting, token, true, form))
}

#[cycle(statement)]
#[tactic(auto, unfolding(crate::specs::Statements::statement), using(crate::proofs::Sizes::of_last))]
fn last_block(
    setting: &Setting,
    around: &Around,
    making: &mut Making,
    texts: &mut Texts,
    b: &Option<Block>,
) -> Result<Option<Box<Stmt>>, TypeError>
    ensures { (w : PlainSetting)
        → IsSetting setting.now w → MakesTo other result (making_of making.new texts.new)
        (last_block w (around_of around.now) (last_seen b.now) (making_of making.old texts.old)) }
{
    match b {
        Some(b) => {
            let x = block(setting, around, making, texts, b)?;
            Ok(Some(Box::new(setting.alloc, x)?))
        }
        None => Ok(None),
    }
}

#[cycle(statement)]
#[tactic(auto, unfolding(crate::specs::Statements::clause, crate::specs::Making::in_block))]
fn caught(
    setting: &Setting,
    around: &Around,
    making: &mut Making,
    texts: &mut Texts,
    c: &Catch,
) -> Result<KernelCatch, TypeError>
    ensures form { (w : PlainSetting)
        → IsSetting setting.now w → MakesTo clause_seen result (making_of making.new texts.new)
        (plain_clause w (named_of c.now.class) (named_of c.now.name)
        (block w (around_of around.now) (block_of c.now.block)) (making_of making.old texts.old)) }
    ensures site { IfOk result (λ k. k.site ≡ c.now.name.token) }
{
    let site = c.name.token;
    making.open_block(texts)?;
    let class = caught_class(setting, making, texts, &c.class, site)?;
    let local = making.declare(setting.alloc, &c.name, type_of_class(class), false)?;
    must_be_throwable(setting, making, texts, class, site)?;
    let block = block(setting, around, making, texts, &c.block)?;
    making.close_block(texts);
    Ok(KernelCatch {
        class,
        local,
        site,
        block,
    })
}

#[cycle(statement)]
#[tactic(auto, using(crate::proofs::Clauses::begins, crate::proofs::Sizes::of_catch))]
fn clauses(
    setting: &Setting,
    around: &Around,
    making: &mut Making,
    texts: &mut Texts,
    catches: &[Catch],
) -> Result<Vec<KernelCatch>, TypeError>
    ensures { (w : PlainSetting) → IsSetting setting.now w → MakesTo clauses_seen result
        (making_of making.new texts.new) (clauses w (around_of around.now)
        (clauses_of (map clause_of catches.now)) (making_of making.old texts.old)) }
{
    let mut all = Vec::new(setting.alloc);
    for catch in catches {
        let made = caught(setting, around, making, texts, catch)?;
        all.push(made)?;
    }
    Ok(all)
}

// What stands around the first block of a `try`.
#[tactic(auto, using(crate::proofs::Clauses::with_clauses, crate::proofs::Clauses::without_clauses))]
fn in_first_block(around: &Around, number: u32, catches: &[Catch]) -> Result<Around, AllocError>
    ensures { IfOk result (λ a. around_of a ≡ in_first_block (around_of around.now) number
        (clauses_of (map clause_of catches.now))) }
{
    if catches.len() > 0 {
        around.in_try(number)
    } else {
        around.inside(number)
    }
}

fn type_of_class(class: u32) -> Ty
    ensures { result ≡ class_type class }
{
    Ty::Of {
        base: Base::Class(class),
        brackets: 0,
    }
}

// The condition of a `for`, if it has one.
fn tested(
    setting: &Setting,
    making: &Making,
    texts: &mut Texts,
    test: &Option<Expression>,
    site: u32,
) -> Result<Option<Box<Expr>>, TypeError>
    ensures { (w : PlainSetting)
        → IsSetting setting.now w → MakesTo inner_test result (making_of making.now texts.new)
        (tested w (option_map expression_of test.now) site (making_of making.now texts.old)) }
{
    match test {
        Some(test) => Ok(Some(condition(setting, making, texts, test, site)?)),
        None => Ok(None),
    }
}

// A condition that stands in a form itself.
fn unboxed(test: Option<Box<Expr>>) -> Option<Expr>
    ensures { test_of result ≡ inner_test test }
{
    match test {
        Some(test) => Some(Box::into_inner(test)),
        None => None,
    }
}
