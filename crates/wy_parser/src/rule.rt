//! The rules of the grammar, as they stand in its definition.

ghost use Rattle.std.specs.Prelude.{◌≡◌, ◌++◌, IfOk, OnOk, is_some, reverse, true, false};
ghost use Rattle.wy_tree.specs.Grammar.{rule as rule_of, form_of as form_of_sort, tighter as tighter_than, operates as operating};
ghost use Rattle.wy_parser.specs.Prediction.{continued_level, continued_primary, continued_relation, continued_by as goes_on};
ghost use Rattle.wy_parser.specs.Rules.{items_of, declaration_rule, type_rule, statement_rule, expression_rule};

use crate::row::put;
use std::alloc::AllocError;
use wy_tree::grammar::{Class, Item, Row, Sort};
use wy_tree::kind::{Kind, is_kind};
use wy_tree::tree::Form;

#[tactic(auto, unfolding(crate::specs::Rules::declaration_rule))]
fn put_declaration_rule(pending: &mut Vec<Item>, sort: Sort) -> Result<(), AllocError>
    ensures { OnOk result
        (reverse pending.new.items ≡ declaration_rule sort ++ reverse pending.old.items) }
{
    match sort {
        Sort::Unit => put(pending, &[Item::Parts(Row::Any(Sort::Declaration))]),
        Sort::Declaration => put(pending, &[Item::Parts(Row::Declared)]),
        Sort::Class => put(
            pending,
            &[
                Item::Parts(Row::Any(Sort::Mod)),
                Item::One(Class::Exactly(Kind::Class)),
                Item::One(Class::Name),
                Item::Parts(Row::Superclass),
                Item::Parts(Row::Interfaces),
                Item::One(Class::Exactly(Kind::OpenBrace)),
                Item::Parts(Row::Any(Sort::Member)),
                Item::One(Class::Exactly(Kind::CloseBrace)),
            ],
        ),
        Sort::Interface => put(
            pending,
            &[
                Item::Parts(Row::Any(Sort::Mod)),
                Item::One(Class::Exactly(Kind::Interface)),
                Item::One(Class::Name),
                Item::Parts(Row::Supers),
                Item::One(Class::Exactly(Kind::OpenBrace)),
                Item::Parts(Row::Methods),
                Item::One(Class::Exactly(Kind::CloseBrace)),
            ],
        ),
        Sort::Mod => put(pending, &[Item::Parts(Row::ModForm)]),
        Sort::Member => put(pending, &[Item::Parts(Row::MemberForm)]),
        Sort::Params => put(
            pending,
            &[
                Item::One(Class::Exactly(Kind::OpenParen)),
                Item::Parts(Row::Series(Sort::Param)),
                Item::One(Class::Exactly(Kind::CloseParen)),
            ],
        ),
        _ => put(
            pending,
            &[
                Item::Parts(Row::MaybeFinal),
                Item::Part(Sort::Type),
                Item::One(Class::Name),
                Item::Parts(Row::Brackets),
            ],
        ),
    }
}

#[tactic(auto, unfolding(crate::specs::Rules::type_rule))]
fn put_type_rule(pending: &mut Vec<Item>, sort: Sort) -> Result<(), AllocError>
    ensures { OnOk result
        (reverse pending.new.items ≡ type_rule sort ++ reverse pending.old.items) }
{
    match sort {
        Sort::Throws => put(
            pending,
            &[
                Item::One(Class::Exactly(Kind::Throws)),
                Item::One(Class::Name),
                Item::Parts(Row::Names),
            ],
        ),
        Sort::Result => put(pending, &[Item::Parts(Row::ResultForm)]),
        Sort::Type => put(
            pending,
            &[Item::One(Class::Element), Item::Parts(Row::Brackets)],
        ),
        Sort::RefType => put(pending, &[Item::Part(Sort::Type)]),
        Sort::Decls => put(
            pending,
            &[
                Item::Part(Sort::Decl),
                Item::Parts(Row::Further(Sort::Decl)),
            ],
        ),
        Sort::Decl => put(
            pending,
            &[
                Item::One(Class::Name),
                Item::Parts(Row::Brackets),
                Item::Parts(Row::Initial),
            ],
        ),
        _ => put(pending, &[Item::Parts(Row::InitForm)]),
    }
}

#[tactic(auto, unfolding(crate::specs::Rules::statement_rule))]
fn put_statement_rule(pending: &mut Vec<Item>, sort: Sort) -> Result<(), AllocError>
    ensures { OnOk result
        (reverse pending.new.items ≡ statement_rule sort ++ reverse pending.old.items) }
{
    match sort {
        Sort::Block => put(
            pending,
            &[
                Item::One(Class::Exactly(Kind::OpenBrace)),
                Item::Parts(Row::Any(Sort::Local)),
                Item::One(Class::Exactly(Kind::CloseBrace)),
            ],
        ),
        Sort::Local => put(pending, &[Item::Parts(Row::LocalForm)]),
        Sort::Stmt => put(pending, &[Item::Parts(Row::StmtForm)]),
        Sort::ForInit => put(pending, &[Item::Parts(Row::ForInitForm)]),
        Sort::Catch => put(
            pending,
            &[
                Item::One(Class::Exactly(Kind::Catch)),
                Item::One(Class::Exactly(Kind::OpenParen)),
                Item::Parts(Row::MaybeFinal),
                Item::One(Class::Name),
                Item::One(Class::Name),
                Item::One(Class::Exactly(Kind::CloseParen)),
                Item::Part(Sort::Block),
            ],
        ),
        _ => put(pending, &[Item::Part(Sort::Expr)]),
    }
}

#[tactic(auto, unfolding(crate::specs::Rules::expression_rule))]
fn put_expression_rule(pending: &mut Vec<Item>, sort: Sort) -> Result<(), AllocError>
    ensures { OnOk result
        (reverse pending.new.items ≡ expression_rule sort ++ reverse pending.old.items) }
{
    match sort {
        Sort::Expr => put(
            pending,
            &[Item::Part(Sort::Cond), Item::Parts(Row::Assigned)],
        ),
        Sort::Cond => put(
            pending,
            &[Item::Part(Sort::OrElse), Item::Parts(Row::Choice)],
        ),
        Sort::Unary => put(pending, &[Item::Parts(Row::UnaryForm)]),
        Sort::Cast => put(
            pending,
            &[
                Item::One(Class::Exactly(Kind::OpenParen)),
                Item::Parts(Row::CastForm),
            ],
        ),
        Sort::Operand => put(pending, &[Item::Part(Sort::Unary)]),
        Sort::Postfix => put(
            pending,
            &[Item::Part(Sort::Primary), Item::Parts(Row::Steps)],
        ),
        Sort::Primary => put(pending, &[Item::Parts(Row::PrimaryForm)]),
        Sort::New => put(
            pending,
            &[
                Item::One(Class::Exactly(Kind::New)),
                Item::Parts(Row::NewForm),
            ],
        ),
        _ => put(
            pending,
            &[
                Item::One(Class::Exactly(Kind::OpenParen)),
                Item::Parts(Row::Series(Sort::Expr)),
                Item::One(Class::Exactly(Kind::CloseParen)),
            ],
        ),
    }
}

/// Puts the rule of a sort before what is pending.
#[tactic(auto, unfolding(crate::specs::Rules::declaration_rule, crate::specs::Rules::type_rule, crate::specs::Rules::statement_rule, crate::specs::Rules::expression_rule))]
pub fn put_rule(pending: &mut Vec<Item>, sort: Sort) -> Result<(), AllocError>
    ensures { OnOk result (reverse pending.new.items ≡ rule_of sort ++ reverse pending.old.items) }
{
    match sort {
        Sort::Unit
        | Sort::Declaration
        | Sort::Class
        | Sort::Interface
        | Sort::Mod
        | Sort::Member
        | Sort::Params
        | Sort::Param => put_declaration_rule(pending, sort),
        Sort::Throws
        | Sort::Result
        | Sort::Type
        | Sort::RefType
        | Sort::Decls
        | Sort::Decl
        | Sort::Init => put_type_rule(pending, sort),
        Sort::Block | Sort::Local | Sort::Stmt | Sort::ForInit | Sort::Catch | Sort::Effect =>
            put_statement_rule(pending, sort),
        Sort::Expr
        | Sort::Cond
        | Sort::Unary
        | Sort::Cast
        | Sort::Operand
        | Sort::Postfix
        | Sort::Primary
        | Sort::New
        | Sort::Args => put_expression_rule(pending, sort),
        _ => put(pending, &[Item::Part(tighter(sort))]),
    }
}

/// The form of the node that a sort makes.
pub fn form_of(sort: Sort) -> Form
    ensures { result ≡ form_of_sort sort }
{
    match sort {
        Sort::Unit | Sort::Declaration => Form::Unit,
        Sort::Class => Form::Class,
        Sort::Interface => Form::Interface,
        Sort::Mod => Form::Mod,
        Sort::Member => Form::Member,
        Sort::Params => Form::Params,
        Sort::Param => Form::Param,
        Sort::Throws => Form::Throws,
        Sort::Result => Form::Result,
        Sort::Type | Sort::RefType => Form::TypeNode,
        Sort::Decls => Form::Decls,
        Sort::Decl => Form::Decl,
        Sort::Init => Form::Init,
        Sort::Block => Form::Block,
        Sort::Local | Sort::Stmt => Form::Stmt,
        Sort::ForInit => Form::ForInit,
        Sort::Catch => Form::Catch,
        Sort::Expr | Sort::Effect => Form::Expr,
        Sort::Cond => Form::Cond,
        Sort::Unary | Sort::Operand => Form::Unary,
        Sort::Cast => Form::Cast,
        Sort::Postfix => Form::Postfix,
        Sort::Primary => Form::Primary,
        Sort::New => Form::New,
        Sort::Args => Form::Args,
        _ => Form::Binary,
    }
}

fn tighter(sort: Sort) -> Sort
    ensures { result ≡ tighter_than sort }
{
    match sort {
        Sort::OrElse => Sort::AndAlso,
        Sort::AndAlso => Sort::Or,
        Sort::Or => Sort::Xor,
        Sort::Xor => Sort::And,
        Sort::And => Sort::Equality,
        Sort::Equality => Sort::Relation,
        Sort::Relation => Sort::Shift,
        Sort::Shift => Sort::Sum,
        Sort::Sum => Sort::Product,
        _ => Sort::Unary,
    }
}

fn operates(sort: Sort, kind: Kind) -> bool
    ensures { result ≡ operating sort kind }
{
    match sort {
        Sort::OrElse => is_kind(kind, Kind::OrElse),
        Sort::AndAlso => is_kind(kind, Kind::AndAlso),
        Sort::Or => is_kind(kind, Kind::Or),
        Sort::Xor => is_kind(kind, Kind::Xor),
        Sort::And => is_kind(kind, Kind::And),
        Sort::Equality => is_kind(kind, Kind::Equality),
        Sort::Relation => is_kind(kind, Kind::Relation),
        Sort::Shift => is_kind(kind, Kind::Shift),
        Sort::Sum => is_kind(kind, Kind::Plus) || is_kind(kind, Kind::Minus),
        Sort::Product => is_kind(kind, Kind::Times),
        _ => false,
    }
}

#[tactic(auto, unfolding(crate::specs::Prediction::continued_level))]
fn continue_level(pending: &mut Vec<Item>, sort: Sort, kind: Kind) -> Result<bool, AllocError>
    ensures told { IfOk result (λ b. b ≡ is_some (continued_level sort kind)) }
    ensures put { OnOk result (reverse pending.new.items ≡ items_of (continued_level sort kind)
        ++ reverse pending.old.items) }
{
    if !operates(sort, kind) {
        return Ok(false);
    }
    put(
        pending,
        &[Item::One(Class::Exactly(kind)), Item::Part(tighter(sort))],
    )?;
    Ok(true)
}

#[tactic(auto, unfolding(crate::specs::Prediction::continued_relation))]
fn continue_relation(pending: &mut Vec<Item>, kind: Kind) -> Result<bool, AllocError>
    ensures told { IfOk result (λ b. b ≡ is_some (continued_relation kind)) }
    ensures put { OnOk result (reverse pending.new.items ≡ items_of (continued_relation kind)
        ++ reverse pending.old.items) }
{
    if !is_kind(kind, Kind::Instanceof) {
        return continue_level(pending, Sort::Relation, kind);
    }
    put(
        pending,
        &[
            Item::One(Class::Exactly(Kind::Instanceof)),
            Item::Part(Sort::RefType),
        ],
    )?;
    Ok(true)
}

#[tactic(auto, unfolding(crate::specs::Prediction::continued_primary))]
fn continue_primary(pending: &mut Vec<Item>, kind: Kind) -> Result<bool, AllocError>
    ensures told { IfOk result (λ b. b ≡ is_some (continued_primary kind)) }
    ensures put { OnOk result (reverse pending.new.items ≡ items_of (continued_primary kind)
        ++ reverse pending.old.items) }
{
    if is_kind(kind, Kind::Dot) {
        put(
            pending,
            &[
                Item::One(Class::Exactly(Kind::Dot)),
                Item::One(Class::Name),
                Item::Parts(Row::Maybe(Sort::Args)),
            ],
        )?;
        return Ok(true);
    }
    if !is_kind(kind, Kind::OpenBracket) {
        return Ok(false);
    }
    put(
        pending,
        &[
            Item::One(Class::Exactly(Kind::OpenBracket)),
            Item::Part(Sort::Expr),
            Item::One(Class::Exactly(Kind::CloseBracket)),
        ],
    )?;
    Ok(true)
}

/// Puts what goes on with a tree of a sort before what is pending, if a token of this kind begins it.
pub fn continue_with(pending: &mut Vec<Item>, sort: Sort, kind: Kind) -> Result<bool, AllocError>
    ensures told { IfOk result (λ b. b ≡ is_some (goes_on sort kind)) }
    ensures put { OnOk result
        (reverse pending.new.items ≡ items_of (goes_on sort kind) ++ reverse pending.old.items) }
{
    match sort {
        Sort::Relation => continue_relation(pending, kind),
        Sort::Primary => continue_primary(pending, kind),
        _ => continue_level(pending, sort, kind),
    }
}
