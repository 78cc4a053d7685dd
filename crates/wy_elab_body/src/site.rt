//! The sites of statements: the token of each that its record names.

ghost use Rattle.std.specs.Prelude.{◌≡◌, option_map};
ghost use Rattle.wy_elab_body.specs.Statements.{Setting as PlainSetting, body_of_loop, is_declaration, number_of_body, site_of};
ghost use Rattle.wy_elab_body.specs.Views.{IsSetting};
ghost use Rattle.wy_syntax.specs.View.{statement_of};

use crate::setting::Setting;
use wy_syntax::statement::Statement;

/// The site of a statement.
#[tactic(auto, unfolding(crate::specs::Statements::site_of), using(wy_syntax::proofs::StatementViews::view_block, wy_syntax::proofs::StatementViews::view_braced, wy_syntax::proofs::StatementViews::view_empty, wy_syntax::proofs::StatementViews::view_declare, wy_syntax::proofs::StatementViews::view_effect, wy_syntax::proofs::StatementViews::view_if, wy_syntax::proofs::StatementViews::view_while, wy_syntax::proofs::StatementViews::view_do, wy_syntax::proofs::StatementViews::view_for, wy_syntax::proofs::StatementViews::view_labelled, wy_syntax::proofs::StatementViews::view_break, wy_syntax::proofs::StatementViews::view_continue, wy_syntax::proofs::StatementViews::view_return, wy_syntax::proofs::StatementViews::view_throw, wy_syntax::proofs::StatementViews::view_try, wy_syntax::proofs::StatementViews::view_wrong))]
pub fn site_of(s: &Statement) -> u32
    ensures { result ≡ site_of (statement_of s.now) }
{
    match s {
        Statement::Block { block } => block.brace,
        Statement::Empty { token } => *token,
        Statement::Declare {
            is_final: _,
            ty,
            declarators: _,
        } => ty.token,
        Statement::Effect { effect } => effect.token,
        Statement::If {
            test: _,
            main: _,
            other: _,
            token,
        } => *token,
        Statement::While {
            test: _,
            body: _,
            token,
        } => *token,
        Statement::Do {
            body: _,
            test: _,
            token,
        } => *token,
        Statement::For {
            init: _,
            test: _,
            updates: _,
            body: _,
            token,
        } => *token,
        Statement::Labelled { name, body: _ } => name.token,
        Statement::Break { label: _, token } => *token,
        Statement::Continue { label: _, token } => *token,
        Statement::Return { value: _, token } => *token,
        Statement::Throw { value: _, token } => *token,
        Statement::Try {
            main: _,
            catches: _,
            last: _,
            token,
        } => *token,
        Statement::Wrong => 0,
    }
}

/// The body of a statement that is a loop.
#[tactic(auto, unfolding(crate::specs::Statements::body_of_loop), using(wy_syntax::proofs::StatementViews::view_block, wy_syntax::proofs::StatementViews::view_empty, wy_syntax::proofs::StatementViews::view_declare, wy_syntax::proofs::StatementViews::view_effect, wy_syntax::proofs::StatementViews::view_if, wy_syntax::proofs::StatementViews::view_while, wy_syntax::proofs::StatementViews::view_do, wy_syntax::proofs::StatementViews::view_for, wy_syntax::proofs::StatementViews::view_labelled, wy_syntax::proofs::StatementViews::view_break, wy_syntax::proofs::StatementViews::view_continue, wy_syntax::proofs::StatementViews::view_return, wy_syntax::proofs::StatementViews::view_throw, wy_syntax::proofs::StatementViews::view_try, wy_syntax::proofs::StatementViews::view_wrong))]
pub fn body_of_loop(s: &Statement) -> Option<&Statement>
    ensures { option_map (λ b. statement_of b.now) result ≡ body_of_loop (statement_of s.now) }
{
    match s {
        Statement::While {
            test: _,
            body,
            token: _,
        } => Some(body),
        Statement::Do {
            body,
            test: _,
            token: _,
        } => Some(body),
        Statement::For {
            init: _,
            test: _,
            updates: _,
            body,
            token: _,
        } => Some(body),
        Statement::Block { block: _ } => None,
        Statement::Empty { token: _ } => None,
        Statement::Declare {
            is_final: _,
            ty: _,
            declarators: _,
        } => None,
        Statement::Effect { effect: _ } => None,
        Statement::If {
            test: _,
            main: _,
            other: _,
            token: _,
        } => None,
        Statement::Labelled { name: _, body: _ } => None,
        Statement::Break { label: _, token: _ } => None,
        Statement::Continue { label: _, token: _ } => None,
        Statement::Return { value: _, token: _ } => None,
        Statement::Throw { value: _, token: _ } => None,
        Statement::Try {
            main: _,
            catches: _,
            last: _,
            token: _,
        } => None,
        Statement::Wrong => None,
    }
}

/// Whether a statement is a declaration.
#[tactic(auto, unfolding(crate::specs::Statements::is_declaration), using(wy_syntax::proofs::StatementViews::view_block, wy_syntax::proofs::StatementViews::view_empty, wy_syntax::proofs::StatementViews::view_declare, wy_syntax::proofs::StatementViews::view_effect, wy_syntax::proofs::StatementViews::view_if, wy_syntax::proofs::StatementViews::view_while, wy_syntax::proofs::StatementViews::view_do, wy_syntax::proofs::StatementViews::view_for, wy_syntax::proofs::StatementViews::view_labelled, wy_syntax::proofs::StatementViews::view_break, wy_syntax::proofs::StatementViews::view_continue, wy_syntax::proofs::StatementViews::view_return, wy_syntax::proofs::StatementViews::view_throw, wy_syntax::proofs::StatementViews::view_try, wy_syntax::proofs::StatementViews::view_wrong))]
pub fn is_declaration(s: &Statement) -> bool
    ensures { result ≡ is_declaration (statement_of s.now) }
{
    match s {
        Statement::Declare {
            is_final: _,
            ty: _,
            declarators: _,
        } => true,
        Statement::Block { block: _ } => false,
        Statement::Empty { token: _ } => false,
        Statement::Effect { effect: _ } => false,
        Statement::If {
            test: _,
            main: _,
            other: _,
            token: _,
        } => false,
        Statement::While {
            test: _,
            body: _,
            token: _,
        } => false,
        Statement::Do {
            body: _,
            test: _,
            token: _,
        } => false,
        Statement::For {
            init: _,
            test: _,
            updates: _,
            body: _,
            token: _,
        } => false,
        Statement::Labelled { name: _, body: _ } => false,
        Statement::Break { label: _, token: _ } => false,
        Statement::Continue { label: _, token: _ } => false,
        Statement::Return { value: _, token: _ } => false,
        Statement::Throw { value: _, token: _ } => false,
        Statement::Try {
            main: _,
            catches: _,
            last: _,
            token: _,
        } => false,
        Statement::Wrong => false,
    }
}

/// The number of the body of a loop.
pub fn number_of_body(setting: &Setting, body: Option<&Statement>) -> Option<u32>
    ensures { (w : PlainSetting) → IsSetting setting.now w
        → result ≡ number_of_body w (option_map (λ b. statement_of b.now) body.entry) }
{
    match body {
        Some(body) => Some(setting.number(site_of(body))),
        None => None,
    }
}
