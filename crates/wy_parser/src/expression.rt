//! The way that a text takes at each choice within an expression.

ghost use Rattle.std.specs.Prelude.{◌≡◌, ◌++◌, OnOk, reverse};
ghost use Rattle.wy_parser.specs.Symbols.{symbols_seen};
ghost use Rattle.wy_parser.specs.Prediction.{predict_unary as unary_way, predict_operator as operator_way, predict_primary as primary_way, predict_new as new_way, predict_dimension as dimension_way};

use crate::look::{behind, casts, first_kind, is_element, is_prefixing, is_setting};
use crate::row::{put, token};
use crate::symbol::Symbol;
use std::alloc::AllocError;
use wy_tree::grammar::{Class, Item, Row, Sort};
use wy_tree::kind::{Kind, is_kind};

#[tactic(auto, unfolding(crate::specs::Prediction::predict_unary))]
fn unary_ways(pending: &mut Vec<Item>, symbols: &[Symbol]) -> Result<(), AllocError>
    ensures { OnOk result (reverse pending.new.items ≡ unary_way (symbols_seen symbols.now)
        ++ reverse pending.old.items) }
{
    let first = first_kind(symbols);
    if is_kind(first, Kind::Minus) {
        put(pending, &[token(Kind::Minus), Item::Parts(Row::Negated)])
    } else if is_prefixing(first) {
        put(
            pending,
            &[Item::One(Class::Prefixing), Item::Part(Sort::Unary)],
        )
    } else if casts(symbols) {
        put(pending, &[Item::Part(Sort::Cast)])
    } else {
        put(pending, &[Item::Part(Sort::Postfix)])
    }
}

#[tactic(auto, unfolding(crate::specs::Prediction::predict_operator))]
pub fn operator_ways(
    pending: &mut Vec<Item>,
    row: Row,
    symbols: &[Symbol],
) -> Result<(), AllocError>
    ensures { OnOk result (reverse pending.new.items ≡ operator_way row (symbols_seen symbols.now)
        ++ reverse pending.old.items) }
{
    let first = first_kind(symbols);
    let second = first_kind(behind(symbols));
    match row {
        Row::Assigned => {
            if is_setting(first) {
                put(
                    pending,
                    &[Item::One(Class::Setting), Item::Part(Sort::Expr)],
                )
            } else {
                Ok(())
            }
        }
        Row::Choice => {
            if is_kind(first, Kind::Question) {
                put(
                    pending,
                    &[
                        token(Kind::Question),
                        Item::Part(Sort::Expr),
                        token(Kind::Colon),
                        Item::Part(Sort::Cond),
                    ],
                )
            } else {
                Ok(())
            }
        }
        Row::UnaryForm => { unary_ways(pending, symbols) }
        Row::Negated => {
            if is_kind(first, Kind::Big) {
                put(pending, &[token(Kind::Big)])
            } else {
                put(pending, &[Item::Part(Sort::Unary)])
            }
        }
        Row::CastForm => {
            if is_kind(first, Kind::Prim) && is_kind(second, Kind::CloseParen) {
                put(
                    pending,
                    &[
                        token(Kind::Prim),
                        token(Kind::CloseParen),
                        Item::Part(Sort::Unary),
                    ],
                )
            } else {
                put(
                    pending,
                    &[
                        Item::Part(Sort::RefType),
                        token(Kind::CloseParen),
                        Item::Part(Sort::Operand),
                    ],
                )
            }
        }
        _ => {
            if is_kind(first, Kind::Step) {
                put(pending, &[token(Kind::Step), Item::Parts(Row::Steps)])
            } else {
                Ok(())
            }
        }
    }
}

#[tactic(auto, unfolding(crate::specs::Prediction::predict_primary))]
pub fn primary_ways(pending: &mut Vec<Item>, symbols: &[Symbol]) -> Result<(), AllocError>
    ensures { OnOk result (reverse pending.new.items ≡ primary_way (symbols_seen symbols.now)
        ++ reverse pending.old.items) }
{
    let first = first_kind(symbols);
    if is_kind(first, Kind::Literal) {
        put(pending, &[token(Kind::Literal)])
    } else if is_kind(first, Kind::This) {
        put(pending, &[token(Kind::This)])
    } else if is_kind(first, Kind::OpenParen) {
        put(
            pending,
            &[
                token(Kind::OpenParen),
                Item::Part(Sort::Expr),
                token(Kind::CloseParen),
            ],
        )
    } else if is_kind(first, Kind::New) {
        put(pending, &[Item::Part(Sort::New)])
    } else if is_kind(first, Kind::Super) {
        put(
            pending,
            &[
                token(Kind::Super),
                token(Kind::Dot),
                Item::One(Class::Name),
                Item::Parts(Row::Maybe(Sort::Args)),
            ],
        )
    } else {
        put(
            pending,
            &[Item::One(Class::Name), Item::Parts(Row::Maybe(Sort::Args))],
        )
    }
}

#[tactic(auto, unfolding(crate::specs::Prediction::predict_new))]
pub fn new_ways(pending: &mut Vec<Item>, symbols: &[Symbol]) -> Result<(), AllocError>
    ensures { OnOk result (reverse pending.new.items ≡ new_way (symbols_seen symbols.now)
        ++ reverse pending.old.items) }
{
    let first = first_kind(symbols);
    let second = first_kind(behind(symbols));
    let third = first_kind(behind(behind(symbols)));
    if is_element(first) && is_kind(second, Kind::OpenParen) {
        put(pending, &[Item::One(Class::Name), Item::Part(Sort::Args)])
    } else if is_element(first)
        && (is_kind(second, Kind::OpenBracket) && is_kind(third, Kind::CloseBracket))
    {
        put(
            pending,
            &[
                Item::One(Class::Element),
                token(Kind::OpenBracket),
                token(Kind::CloseBracket),
                Item::Parts(Row::Brackets),
                token(Kind::OpenBrace),
                Item::Parts(Row::Elements),
                token(Kind::CloseBrace),
            ],
        )
    } else {
        put(
            pending,
            &[
                Item::One(Class::Element),
                token(Kind::OpenBracket),
                Item::Part(Sort::Expr),
                token(Kind::CloseBracket),
                Item::Parts(Row::Dimensions),
            ],
        )
    }
}

#[tactic(auto, unfolding(crate::specs::Prediction::predict_dimension))]
pub fn dimension_ways(pending: &mut Vec<Item>, symbols: &[Symbol]) -> Result<(), AllocError>
    ensures { OnOk result (reverse pending.new.items ≡ dimension_way (symbols_seen symbols.now)
        ++ reverse pending.old.items) }
{
    let first = first_kind(symbols);
    let second = first_kind(behind(symbols));
    if is_kind(first, Kind::OpenBracket) {
        if is_kind(second, Kind::CloseBracket) {
            put(
                pending,
                &[
                    token(Kind::OpenBracket),
                    token(Kind::CloseBracket),
                    Item::Parts(Row::Brackets),
                ],
            )
        } else {
            put(
                pending,
                &[
                    token(Kind::OpenBracket),
                    Item::Part(Sort::Expr),
                    token(Kind::CloseBracket),
                    Item::Parts(Row::Dimensions),
                ],
            )
        }
    } else {
        Ok(())
    }
}
