//! The way that a text takes at each choice of the grammar.

ghost use Rattle.std.specs.Prelude.{◌≡◌, ◌++◌, OnOk, reverse};
ghost use Rattle.wy_tree.specs.Grammar.{a};
ghost use Rattle.wy_parser.specs.Symbols.{symbols_seen};
ghost use Rattle.wy_parser.specs.Prediction.{predict as way, predict_list as list_way, predict_declared as declared_way, predict_method as method_way, predict_declaration as declaration_way, predict_member_form as member_form_way, predict_member_tail as member_tail_way, predict_member as member_way, predict_elements as elements_way, predict_initial as initial_way, predict_leaving as leaving_way, predict_looping as looping_way, predict_statement_form as statement_form_way, predict_statement as statement_way, comes as coming, is_there as being_there};

use crate::expression::{dimension_ways, new_ways, operator_ways, primary_ways};
use crate::look::{
    behind, declares, first_kind, heads_interface, heads_method, is_modifying, is_name, is_own,
};
use crate::symbol::Symbol;
use std::alloc::AllocError;
use wy_tree::grammar::{Class, Item, Row, Sort};
use wy_tree::kind::{Kind, is_kind};

/// Puts items before those that are pending, whose first is the last of the `Vec`.
pub fn put(pending: &mut Vec<Item>, items: &[Item]) -> Result<(), AllocError>
    ensures { OnOk result (reverse pending.new.items ≡ items.now ++ reverse pending.old.items) }
{
    let mut left = items;
    while let Some((last, before)) = left.split_last() {
        pending.push(*last)?;
        left = before;
    }
    Ok(())
}

/// The item of a token of one kind.
pub fn token(kind: Kind) -> Item
    ensures { result ≡ a kind }
{
    Item::One(Class::Exactly(kind))
}

fn comes(sort: Sort, kind: Kind) -> bool
    ensures { result ≡ coming sort kind }
{
    match sort {
        Sort::Declaration => !is_kind(kind, Kind::Nothing),
        Sort::Mod => is_modifying(kind) || is_kind(kind, Kind::At),
        Sort::Catch => is_kind(kind, Kind::Catch),
        _ => !is_kind(kind, Kind::CloseBrace),
    }
}

fn is_there(sort: Sort, kind: Kind) -> bool
    ensures { result ≡ being_there sort kind }
{
    match sort {
        Sort::Throws => is_kind(kind, Kind::Throws),
        Sort::Args => is_kind(kind, Kind::OpenParen),
        _ => !is_kind(kind, Kind::Semicolon),
    }
}

#[tactic(auto, unfolding(crate::specs::Prediction::predict_list))]
fn list_ways(pending: &mut Vec<Item>, row: Row, symbols: &[Symbol]) -> Result<(), AllocError>
    ensures { OnOk result (reverse pending.new.items ≡ list_way row (symbols_seen symbols.now)
        ++ reverse pending.old.items) }
{
    let first = first_kind(symbols);
    match row {
        Row::Any(sort) => {
            if comes(sort, first) {
                put(pending, &[Item::Part(sort), Item::Parts(Row::Any(sort))])
            } else {
                Ok(())
            }
        }
        Row::Maybe(sort) => {
            if is_there(sort, first) {
                put(pending, &[Item::Part(sort)])
            } else {
                Ok(())
            }
        }
        Row::Series(sort) => {
            if !is_kind(first, Kind::CloseParen) {
                put(
                    pending,
                    &[Item::Part(sort), Item::Parts(Row::Further(sort))],
                )
            } else {
                Ok(())
            }
        }
        Row::Further(sort) => {
            if is_kind(first, Kind::Comma) {
                put(
                    pending,
                    &[
                        token(Kind::Comma),
                        Item::Part(sort),
                        Item::Parts(Row::Further(sort)),
                    ],
                )
            } else {
                Ok(())
            }
        }
        Row::Names => {
            if is_kind(first, Kind::Comma) {
                put(
                    pending,
                    &[
                        token(Kind::Comma),
                        Item::One(Class::Name),
                        Item::Parts(Row::Names),
                    ],
                )
            } else {
                Ok(())
            }
        }
        Row::Brackets => {
            if is_kind(first, Kind::OpenBracket) {
                put(
                    pending,
                    &[
                        token(Kind::OpenBracket),
                        token(Kind::CloseBracket),
                        Item::Parts(Row::Brackets),
                    ],
                )
            } else {
                Ok(())
            }
        }
        _ => {
            if is_kind(first, Kind::Final) {
                put(pending, &[token(Kind::Final)])
            } else {
                Ok(())
            }
        }
    }
}

#[tactic(auto, unfolding(crate::specs::Prediction::predict_method))]
fn method_ways(pending: &mut Vec<Item>, symbols: &[Symbol]) -> Result<(), AllocError>
    ensures { OnOk result (reverse pending.new.items ≡ method_way (symbols_seen symbols.now)
        ++ reverse pending.old.items) }
{
    let first = first_kind(symbols);
    if is_kind(first, Kind::CloseBrace) {
        Ok(())
    } else if is_kind(first, Kind::Semicolon) {
        put(
            pending,
            &[token(Kind::Semicolon), Item::Parts(Row::Methods)],
        )
    } else {
        put(
            pending,
            &[
                Item::Parts(Row::Any(Sort::Mod)),
                Item::Part(Sort::Result),
                Item::One(Class::Name),
                Item::Part(Sort::Params),
                Item::Parts(Row::Maybe(Sort::Throws)),
                token(Kind::Semicolon),
                Item::Parts(Row::Methods),
            ],
        )
    }
}

#[tactic(auto, unfolding(crate::specs::Prediction::predict_declared))]
fn declared_ways(pending: &mut Vec<Item>, symbols: &[Symbol]) -> Result<(), AllocError>
    ensures { OnOk result (reverse pending.new.items ≡ declared_way (symbols_seen symbols.now)
        ++ reverse pending.old.items) }
{
    let first = first_kind(symbols);
    if is_kind(first, Kind::Semicolon) {
        put(pending, &[token(Kind::Semicolon)])
    } else if heads_interface(symbols) {
        put(pending, &[Item::Part(Sort::Interface)])
    } else {
        put(pending, &[Item::Part(Sort::Class)])
    }
}

#[tactic(auto, unfolding(crate::specs::Prediction::predict_declaration))]
fn declaration_ways(pending: &mut Vec<Item>, row: Row, symbols: &[Symbol]) -> Result<(), AllocError>
    ensures { OnOk result (reverse pending.new.items
        ≡ declaration_way row (symbols_seen symbols.now) ++ reverse pending.old.items) }
{
    let first = first_kind(symbols);
    match row {
        Row::Declared => { declared_ways(pending, symbols) }
        Row::Superclass => {
            if is_kind(first, Kind::Extends) {
                put(pending, &[token(Kind::Extends), Item::One(Class::Name)])
            } else {
                Ok(())
            }
        }
        Row::Interfaces => {
            if is_kind(first, Kind::Implements) {
                put(
                    pending,
                    &[
                        token(Kind::Implements),
                        Item::One(Class::Name),
                        Item::Parts(Row::Names),
                    ],
                )
            } else {
                Ok(())
            }
        }
        Row::Supers => {
            if is_kind(first, Kind::Extends) {
                put(
                    pending,
                    &[
                        token(Kind::Extends),
                        Item::One(Class::Name),
                        Item::Parts(Row::Names),
                    ],
                )
            } else {
                Ok(())
            }
        }
        Row::Methods => { method_ways(pending, symbols) }
        _ => {
            if is_kind(first, Kind::At) {
                put(pending, &[token(Kind::At), token(Kind::Override)])
            } else {
                put(pending, &[Item::One(Class::Modifying)])
            }
        }
    }
}

#[tactic(auto, unfolding(crate::specs::Prediction::predict_member_form))]
fn member_form_ways(pending: &mut Vec<Item>, symbols: &[Symbol]) -> Result<(), AllocError>
    ensures { OnOk result (reverse pending.new.items ≡ member_form_way (symbols_seen symbols.now)
        ++ reverse pending.old.items) }
{
    let first = first_kind(symbols);
    let second = first_kind(behind(symbols));
    if is_kind(first, Kind::Semicolon) {
        put(pending, &[token(Kind::Semicolon)])
    } else if is_kind(first, Kind::OpenBrace) {
        put(pending, &[Item::Part(Sort::Block)])
    } else if is_kind(first, Kind::Static) && is_kind(second, Kind::OpenBrace) {
        put(pending, &[token(Kind::Static), Item::Part(Sort::Block)])
    } else {
        put(
            pending,
            &[
                Item::Parts(Row::Any(Sort::Mod)),
                Item::Parts(Row::MemberTail),
            ],
        )
    }
}

#[tactic(auto, unfolding(crate::specs::Prediction::predict_member_tail))]
fn member_tail_ways(pending: &mut Vec<Item>, symbols: &[Symbol]) -> Result<(), AllocError>
    ensures { OnOk result (reverse pending.new.items ≡ member_tail_way (symbols_seen symbols.now)
        ++ reverse pending.old.items) }
{
    let first = first_kind(symbols);
    let second = first_kind(behind(symbols));
    if is_name(first) && is_kind(second, Kind::OpenParen) {
        put(
            pending,
            &[
                Item::One(Class::Name),
                Item::Part(Sort::Params),
                Item::Parts(Row::Maybe(Sort::Throws)),
                token(Kind::OpenBrace),
                Item::Parts(Row::OwnCall),
                Item::Parts(Row::Any(Sort::Local)),
                token(Kind::CloseBrace),
            ],
        )
    } else if heads_method(symbols) {
        put(
            pending,
            &[
                Item::Part(Sort::Result),
                Item::One(Class::Name),
                Item::Part(Sort::Params),
                Item::Parts(Row::Maybe(Sort::Throws)),
                Item::Parts(Row::MethodBody),
            ],
        )
    } else {
        put(
            pending,
            &[
                Item::Part(Sort::Type),
                Item::Part(Sort::Decls),
                token(Kind::Semicolon),
            ],
        )
    }
}

#[tactic(auto, unfolding(crate::specs::Prediction::predict_member))]
fn member_ways(pending: &mut Vec<Item>, row: Row, symbols: &[Symbol]) -> Result<(), AllocError>
    ensures { OnOk result (reverse pending.new.items ≡ member_way row (symbols_seen symbols.now)
        ++ reverse pending.old.items) }
{
    let first = first_kind(symbols);
    let second = first_kind(behind(symbols));
    match row {
        Row::MemberForm => { member_form_ways(pending, symbols) }
        Row::MemberTail => { member_tail_ways(pending, symbols) }
        Row::MethodBody => {
            if is_kind(first, Kind::Semicolon) {
                put(pending, &[token(Kind::Semicolon)])
            } else {
                put(pending, &[Item::Part(Sort::Block)])
            }
        }
        Row::OwnCall => {
            if is_own(first) && is_kind(second, Kind::OpenParen) {
                put(
                    pending,
                    &[
                        Item::One(Class::Own),
                        Item::Part(Sort::Args),
                        token(Kind::Semicolon),
                    ],
                )
            } else {
                Ok(())
            }
        }
        _ => {
            if is_kind(first, Kind::Void) {
                put(pending, &[token(Kind::Void)])
            } else {
                put(pending, &[Item::Part(Sort::Type)])
            }
        }
    }
}

#[tactic(auto, unfolding(crate::specs::Prediction::predict_elements))]
fn elements_ways(pending: &mut Vec<Item>, symbols: &[Symbol]) -> Result<(), AllocError>
    ensures { OnOk result (reverse pending.new.items ≡ elements_way (symbols_seen symbols.now)
        ++ reverse pending.old.items) }
{
    let first = first_kind(symbols);
    if is_kind(first, Kind::CloseBrace) {
        Ok(())
    } else if is_kind(first, Kind::Comma) {
        put(pending, &[token(Kind::Comma)])
    } else {
        put(
            pending,
            &[Item::Part(Sort::Init), Item::Parts(Row::MoreElements)],
        )
    }
}

#[tactic(auto, unfolding(crate::specs::Prediction::predict_initial))]
fn initial_ways(pending: &mut Vec<Item>, row: Row, symbols: &[Symbol]) -> Result<(), AllocError>
    ensures { OnOk result (reverse pending.new.items ≡ initial_way row (symbols_seen symbols.now)
        ++ reverse pending.old.items) }
{
    let first = first_kind(symbols);
    match row {
        Row::Initial => {
            if is_kind(first, Kind::Assign) {
                put(pending, &[token(Kind::Assign), Item::Part(Sort::Init)])
            } else {
                Ok(())
            }
        }
        Row::InitForm => {
            if is_kind(first, Kind::OpenBrace) {
                put(
                    pending,
                    &[
                        token(Kind::OpenBrace),
                        Item::Parts(Row::Elements),
                        token(Kind::CloseBrace),
                    ],
                )
            } else {
                put(pending, &[Item::Part(Sort::Expr)])
            }
        }
        Row::Elements => { elements_ways(pending, symbols) }
        Row::MoreElements => {
            if is_kind(first, Kind::Comma) {
                put(pending, &[token(Kind::Comma), Item::Parts(Row::AfterComma)])
            } else {
                Ok(())
            }
        }
        _ => {
            if !is_kind(first, Kind::CloseBrace) {
                put(
                    pending,
                    &[Item::Part(Sort::Init), Item::Parts(Row::MoreElements)],
                )
            } else {
                Ok(())
            }
        }
    }
}

#[tactic(auto, unfolding(crate::specs::Prediction::predict_leaving))]
fn leaving_ways(pending: &mut Vec<Item>, symbols: &[Symbol]) -> Result<(), AllocError>
    ensures { OnOk result (reverse pending.new.items ≡ leaving_way (symbols_seen symbols.now)
        ++ reverse pending.old.items) }
{
    let first = first_kind(symbols);
    let second = first_kind(behind(symbols));
    if is_kind(first, Kind::Break) {
        put(
            pending,
            &[
                token(Kind::Break),
                Item::Parts(Row::Label),
                token(Kind::Semicolon),
            ],
        )
    } else if is_kind(first, Kind::Continue) {
        put(
            pending,
            &[
                token(Kind::Continue),
                Item::Parts(Row::Label),
                token(Kind::Semicolon),
            ],
        )
    } else if is_kind(first, Kind::Return) {
        put(
            pending,
            &[
                token(Kind::Return),
                Item::Parts(Row::Maybe(Sort::Expr)),
                token(Kind::Semicolon),
            ],
        )
    } else if is_kind(first, Kind::Throw) {
        put(
            pending,
            &[
                token(Kind::Throw),
                Item::Part(Sort::Expr),
                token(Kind::Semicolon),
            ],
        )
    } else if is_name(first) && is_kind(second, Kind::Colon) {
        put(
            pending,
            &[
                Item::One(Class::Name),
                token(Kind::Colon),
                Item::Part(Sort::Stmt),
            ],
        )
    } else {
        put(pending, &[Item::Part(Sort::Effect), token(Kind::Semicolon)])
    }
}

#[tactic(auto, unfolding(crate::specs::Prediction::predict_looping))]
fn looping_ways(pending: &mut Vec<Item>, symbols: &[Symbol]) -> Result<(), AllocError>
    ensures { OnOk result (reverse pending.new.items ≡ looping_way (symbols_seen symbols.now)
        ++ reverse pending.old.items) }
{
    let first = first_kind(symbols);
    if is_kind(first, Kind::While) {
        put(
            pending,
            &[
                token(Kind::While),
                token(Kind::OpenParen),
                Item::Part(Sort::Expr),
                token(Kind::CloseParen),
                Item::Part(Sort::Stmt),
            ],
        )
    } else if is_kind(first, Kind::Do) {
        put(
            pending,
            &[
                token(Kind::Do),
                Item::Part(Sort::Stmt),
                token(Kind::While),
                token(Kind::OpenParen),
                Item::Part(Sort::Expr),
                token(Kind::CloseParen),
                token(Kind::Semicolon),
            ],
        )
    } else if is_kind(first, Kind::For) {
        put(
            pending,
            &[
                token(Kind::For),
                token(Kind::OpenParen),
                Item::Parts(Row::Maybe(Sort::ForInit)),
                token(Kind::Semicolon),
                Item::Parts(Row::Maybe(Sort::Expr)),
                token(Kind::Semicolon),
                Item::Parts(Row::Series(Sort::Effect)),
                token(Kind::CloseParen),
                Item::Part(Sort::Stmt),
            ],
        )
    } else {
        leaving_ways(pending, symbols)
    }
}

#[tactic(auto, unfolding(crate::specs::Prediction::predict_statement_form))]
fn statement_form_ways(pending: &mut Vec<Item>, symbols: &[Symbol]) -> Result<(), AllocError>
    ensures { OnOk result (reverse pending.new.items ≡ statement_form_way (symbols_seen symbols.now)
        ++ reverse pending.old.items) }
{
    let first = first_kind(symbols);
    if is_kind(first, Kind::OpenBrace) {
        put(pending, &[Item::Part(Sort::Block)])
    } else if is_kind(first, Kind::Semicolon) {
        put(pending, &[token(Kind::Semicolon)])
    } else if is_kind(first, Kind::If) {
        put(
            pending,
            &[
                token(Kind::If),
                token(Kind::OpenParen),
                Item::Part(Sort::Expr),
                token(Kind::CloseParen),
                Item::Part(Sort::Stmt),
                Item::Parts(Row::Otherwise),
            ],
        )
    } else if is_kind(first, Kind::Try) {
        put(
            pending,
            &[
                token(Kind::Try),
                Item::Part(Sort::Block),
                Item::Parts(Row::Handlers),
            ],
        )
    } else {
        looping_ways(pending, symbols)
    }
}

#[tactic(auto, unfolding(crate::specs::Prediction::predict_statement))]
fn statement_ways(pending: &mut Vec<Item>, row: Row, symbols: &[Symbol]) -> Result<(), AllocError>
    ensures { OnOk result (reverse pending.new.items ≡ statement_way row (symbols_seen symbols.now)
        ++ reverse pending.old.items) }
{
    let first = first_kind(symbols);
    match row {
        Row::LocalForm => {
            if declares(symbols) {
                put(
                    pending,
                    &[
                        Item::Parts(Row::MaybeFinal),
                        Item::Part(Sort::Type),
                        Item::Part(Sort::Decls),
                        token(Kind::Semicolon),
                    ],
                )
            } else {
                put(pending, &[Item::Part(Sort::Stmt)])
            }
        }
        Row::StmtForm => { statement_form_ways(pending, symbols) }
        Row::Otherwise => {
            if is_kind(first, Kind::Else) {
                put(pending, &[token(Kind::Else), Item::Part(Sort::Stmt)])
            } else {
                Ok(())
            }
        }
        Row::Label => {
            if is_name(first) {
                put(pending, &[Item::One(Class::Name)])
            } else {
                Ok(())
            }
        }
        Row::Handlers => {
            if is_kind(first, Kind::Catch) {
                put(
                    pending,
                    &[
                        Item::Part(Sort::Catch),
                        Item::Parts(Row::Any(Sort::Catch)),
                        Item::Parts(Row::Finally),
                    ],
                )
            } else {
                put(pending, &[token(Kind::Finally), Item::Part(Sort::Block)])
            }
        }
        Row::Finally => {
            if is_kind(first, Kind::Finally) {
                put(pending, &[token(Kind::Finally), Item::Part(Sort::Block)])
            } else {
                Ok(())
            }
        }
        _ => {
            if declares(symbols) {
                put(
                    pending,
                    &[
                        Item::Parts(Row::MaybeFinal),
                        Item::Part(Sort::Type),
                        Item::Part(Sort::Decls),
                    ],
                )
            } else {
                put(
                    pending,
                    &[
                        Item::Part(Sort::Effect),
                        Item::Parts(Row::Further(Sort::Effect)),
                    ],
                )
            }
        }
    }
}

/// Puts the alternative of a row that the text takes before what is pending.
pub fn predict(pending: &mut Vec<Item>, row: Row, symbols: &[Symbol]) -> Result<(), AllocError>
    ensures { OnOk result (reverse pending.new.items ≡ way row (symbols_seen symbols.now)
        ++ reverse pending.old.items) }
{
    match row {
        Row::Any(_)
        | Row::Maybe(_)
        | Row::Series(_)
        | Row::Further(_)
        | Row::Names
        | Row::Brackets
        | Row::MaybeFinal => list_ways(pending, row, symbols),
        Row::Declared
        | Row::Superclass
        | Row::Interfaces
        | Row::Supers
        | Row::Methods
        | Row::ModForm => declaration_ways(pending, row, symbols),
        Row::MemberForm | Row::MemberTail | Row::MethodBody | Row::OwnCall | Row::ResultForm =>
            member_ways(pending, row, symbols),
        Row::Initial | Row::InitForm | Row::Elements | Row::MoreElements | Row::AfterComma =>
            initial_ways(pending, row, symbols),
        Row::LocalForm
        | Row::StmtForm
        | Row::Otherwise
        | Row::Label
        | Row::Handlers
        | Row::Finally
        | Row::ForInitForm => statement_ways(pending, row, symbols),
        Row::Assigned | Row::Choice | Row::UnaryForm | Row::Negated | Row::CastForm | Row::Steps =>
            operator_ways(pending, row, symbols),
        Row::PrimaryForm => primary_ways(pending, symbols),
        Row::NewForm => new_ways(pending, symbols),
        Row::Dimensions => dimension_ways(pending, symbols),
    }
}
