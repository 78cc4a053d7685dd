//! How far reading looks: how many tokens stand at and behind the last one that is looked at, 0 for the end.

ghost use Rattle.std.specs.Prelude.{◌≡◌, length, min};
ghost use Rattle.wy_parser.specs.Symbols.{symbols_seen};
ghost use Rattle.wy_parser.specs.Looks.{reach as how_far, reach_modifiers as modifiers_reach, reach_named as named_reach, reach_declared as declared_reach, reach_member_tail as member_tail_reach, reach_local as local_reach, reach_cast as cast_reach, reach_new as new_reach, second_if as second_reach};

use crate::look::{behind, first_kind, is_element, is_modifying, is_name, is_own};
use crate::symbol::Symbol;
use wy_tree::grammar::Row;
use wy_tree::kind::{Kind, is_kind};

// How many tokens there are.
#[tactic(auto, using(crate::proofs::Looks::length_seen))]
fn remaining(symbols: &[Symbol]) -> usize
    ensures { result ≡ length (symbols_seen symbols.now) }
{
    symbols.len()
}

// Past modifiers, to the first token that is none.
#[tactic(auto, unfolding(crate::specs::Looks::reach_modifiers))]
fn reach_modifiers(symbols: &[Symbol]) -> usize
    ensures { result ≡ modifiers_reach (symbols_seen symbols.now) }
{
    let mut ahead = symbols;
    while let [first, second, after @ ..] = ahead {
        if is_modifying(first.kind) {
            ahead = behind(ahead);
        } else if !is_kind(first.kind, Kind::At) {
            return remaining(ahead);
        } else if is_kind(second.kind, Kind::Override) {
            ahead = after;
        } else {
            return remaining(behind(ahead));
        }
    }
    match ahead {
        [first] if !(is_modifying(first.kind) || is_kind(first.kind, Kind::At)) => 1,
        _ => 0,
    }
}

// Past pairs of brackets, and a name, to what stands behind it.
#[tactic(auto, unfolding(crate::specs::Looks::reach_named))]
fn reach_named(symbols: &[Symbol]) -> usize
    ensures { result ≡ named_reach (symbols_seen symbols.now) }
{
    let mut ahead = symbols;
    while let [first, second, after @ ..] = ahead {
        if !is_kind(first.kind, Kind::OpenBracket) {
            return if is_name(first.kind) {
                remaining(behind(ahead))
            } else {
                remaining(ahead)
            };
        }
        if !is_kind(second.kind, Kind::CloseBracket) {
            return remaining(behind(ahead));
        }
        ahead = after;
    }
    match ahead {
        [first] if !(is_kind(first.kind, Kind::OpenBracket) || is_name(first.kind)) => 1,
        _ => 0,
    }
}

#[tactic(auto, unfolding(crate::specs::Looks::reach_declared))]
fn reach_declared(symbols: &[Symbol]) -> usize
    ensures { result ≡ declared_reach (symbols_seen symbols.now) }
{
    if is_kind(first_kind(symbols), Kind::Semicolon) {
        remaining(symbols)
    } else {
        reach_modifiers(symbols)
    }
}

#[tactic(auto, unfolding(crate::specs::Looks::reach_member_tail))]
fn reach_member_tail(symbols: &[Symbol]) -> usize
    ensures { result ≡ member_tail_reach (symbols_seen symbols.now) }
{
    let first = first_kind(symbols);
    if is_name(first) && is_kind(first_kind(behind(symbols)), Kind::OpenParen) {
        remaining(behind(symbols))
    } else if is_element(first) {
        reach_named(behind(symbols))
    } else {
        remaining(symbols)
    }
}

#[tactic(auto, unfolding(crate::specs::Looks::reach_local))]
fn reach_local(symbols: &[Symbol]) -> usize
    ensures { result ≡ local_reach (symbols_seen symbols.now) }
{
    let behind_first = behind(symbols);
    if !is_name(first_kind(symbols)) {
        remaining(symbols)
    } else if is_kind(first_kind(behind_first), Kind::OpenBracket) {
        remaining(behind(behind_first))
    } else {
        remaining(behind_first)
    }
}

// To what may be the operand of a cast.
#[tactic(auto, unfolding(crate::specs::Looks::reach_cast))]
fn reach_cast(symbols: &[Symbol]) -> usize
    ensures { result ≡ cast_reach (symbols_seen symbols.now) }
{
    let inside = behind(symbols);
    let third = first_kind(behind(inside));
    if !is_kind(first_kind(symbols), Kind::OpenParen) {
        remaining(symbols)
    } else if !is_name(first_kind(inside)) {
        remaining(inside)
    } else if is_kind(third, Kind::OpenBracket) || is_kind(third, Kind::CloseParen) {
        remaining(behind(behind(inside)))
    } else {
        remaining(behind(inside))
    }
}

#[tactic(auto, unfolding(crate::specs::Looks::reach_new))]
fn reach_new(symbols: &[Symbol]) -> usize
    ensures { result ≡ new_reach (symbols_seen symbols.now) }
{
    let behind_first = behind(symbols);
    if !is_element(first_kind(symbols)) {
        remaining(symbols)
    } else if is_kind(first_kind(behind_first), Kind::OpenBracket) {
        remaining(behind(behind_first))
    } else {
        remaining(behind_first)
    }
}

// The second token, if this is so, else the first.
fn second_if(so: bool, symbols: &[Symbol]) -> usize
    ensures { result ≡ second_reach so (symbols_seen symbols.now) }
{
    if so {
        remaining(behind(symbols))
    } else {
        remaining(symbols)
    }
}

// The last token that the choice of a row looks at.
#[tactic(auto, unfolding(crate::specs::Looks::reach))]
fn reach(row: Row, symbols: &[Symbol]) -> usize
    ensures { result ≡ how_far row (symbols_seen symbols.now) }
{
    let first = first_kind(symbols);
    match row {
        Row::Declared => reach_declared(symbols),
        Row::MemberForm => second_if(is_kind(first, Kind::Static), symbols),
        Row::MemberTail => reach_member_tail(symbols),
        Row::OwnCall => second_if(is_own(first), symbols),
        Row::LocalForm | Row::ForInitForm => reach_local(symbols),
        Row::StmtForm => second_if(is_name(first), symbols),
        Row::UnaryForm => reach_cast(symbols),
        Row::CastForm => second_if(is_kind(first, Kind::Prim), symbols),
        Row::NewForm => reach_new(symbols),
        Row::Dimensions => second_if(is_kind(first, Kind::OpenBracket), symbols),
        _ => remaining(symbols),
    }
}

/// The first token is looked at.
pub fn look(seen: &mut usize, symbols: &[Symbol])
    ensures { seen.new ≡ min seen.old (length (symbols_seen symbols.now)) }
{
    *seen = (*seen).min(remaining(symbols));
}

/// The choice of a row is made.
pub fn look_ahead(seen: &mut usize, row: Row, symbols: &[Symbol])
    ensures { seen.new ≡ min seen.old (how_far row (symbols_seen symbols.now)) }
{
    *seen = (*seen).min(reach(row, symbols));
}
