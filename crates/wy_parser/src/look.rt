//! What the next tokens are, as far as a choice of the grammar looks.

ghost use Rattle.std.specs.Prelude.{◌≡◌, ◌<◌, ◌||◌, length, option_map, IfSome};
ghost use Rattle.wy_tree.specs.Conditions.{is_name as named};
ghost use Rattle.wy_tree.specs.Grammar.{allows, is_own as own, is_modifying as modifying, is_setting as setting, is_prefixing as prefixing};
ghost use Rattle.wy_parser.specs.Symbols.{symbol_seen, symbols_seen};
ghost use Rattle.wy_parser.specs.Reading.{taken};
ghost use Rattle.wy_parser.specs.Prediction.{first_kind, second, third, rest, past_modifiers as modifiers_past, past_pairs as pairs_past, is_element as element, names_method as method_named, heads_method as method_heads, heads_interface as interface_heads, declares as declaring, begins_operand as operand_begins, casts as casting, casts_to_name as casting_to_name};

use crate::symbol::Symbol;
use wy_tree::grammar::Class;
use wy_tree::kind::{Kind, is_kind};

/// The kind of the first token.
pub fn first_kind(symbols: &[Symbol]) -> Kind
    ensures { result ≡ first_kind (symbols_seen symbols.now) }
{
    match symbols {
        [] => Kind::Nothing,
        [first, ..] => first.kind,
    }
}

/// The tokens behind the first.
pub fn behind<'a>(symbols: &'a [Symbol]) -> &'a [Symbol]
    ensures { symbols_seen result.now ≡ rest (symbols_seen symbols.now) }
{
    match symbols {
        [] => symbols,
        [_, after @ ..] => after,
    }
}

pub fn is_name(kind: Kind) -> bool
    ensures { result ≡ named kind }
{
    is_kind(kind, Kind::Word) || is_kind(kind, Kind::Override)
}

/// Whether a type begins with this kind.
pub fn is_element(kind: Kind) -> bool
    ensures { result ≡ element kind }
{
    is_name(kind) || is_kind(kind, Kind::Prim)
}

pub fn is_own(kind: Kind) -> bool
    ensures { result ≡ own kind }
{
    is_kind(kind, Kind::This) || is_kind(kind, Kind::Super)
}

pub fn is_modifying(kind: Kind) -> bool
    ensures { result ≡ modifying kind }
{
    is_kind(kind, Kind::Modifier) || is_kind(kind, Kind::Static) || is_kind(kind, Kind::Final)
}

pub fn is_setting(kind: Kind) -> bool
    ensures { result ≡ setting kind }
{
    is_kind(kind, Kind::Assign) || is_kind(kind, Kind::OpAssign)
}

pub fn is_prefixing(kind: Kind) -> bool
    ensures { result ≡ prefixing kind }
{
    is_kind(kind, Kind::Plus) || is_kind(kind, Kind::Step) || is_kind(kind, Kind::Flip)
}

/// Whether a class has this kind.
pub fn allowed(class: Class, kind: Kind) -> bool
    ensures { result ≡ allows class kind }
{
    match class {
        Class::Exactly(wanted) => is_kind(kind, wanted),
        Class::Name => is_name(kind),
        Class::Element => is_element(kind),
        Class::Modifying => is_modifying(kind),
        Class::Setting => is_setting(kind),
        Class::Prefixing => is_prefixing(kind),
        Class::Own => is_own(kind),
    }
}

/// A token of this class at the front, and those after it.
#[tactic(auto, unfolding(crate::specs::Reading::taken))]
pub fn take<'a>(symbols: &'a [Symbol], class: Class) -> Option<(&'a Symbol, &'a [Symbol])>
    ensures shorter { IfSome result (λ x. length x.1.now < length symbols.now) }
    ensures value { option_map (λ x. (symbol_seen x.0.now, symbols_seen x.1.now)) result
        ≡ taken class (symbols_seen symbols.now) }
{
    let (first, after) = symbols.split_first()?;
    if allowed(class, first.kind) {
        Some((first, after))
    } else {
        None
    }
}

#[tactic(auto, unfolding(crate::specs::Prediction::past_pairs))]
fn past_pairs<'a>(symbols: &'a [Symbol]) -> &'a [Symbol]
    ensures { symbols_seen result.now ≡ pairs_past (symbols_seen symbols.now) }
{
    let mut ahead = symbols;
    while let [first, second, after @ ..] = ahead {
        if !(is_kind(first.kind, Kind::OpenBracket) && is_kind(second.kind, Kind::CloseBracket)) {
            return ahead;
        }
        ahead = after;
    }
    ahead
}

#[tactic(auto, unfolding(crate::specs::Prediction::past_modifiers))]
fn past_modifiers<'a>(symbols: &'a [Symbol]) -> &'a [Symbol]
    ensures { symbols_seen result.now ≡ modifiers_past (symbols_seen symbols.now) }
{
    let mut ahead = symbols;
    while let [first, second, after @ ..] = ahead {
        if is_modifying(first.kind) {
            ahead = behind(ahead);
        } else if is_kind(first.kind, Kind::At) && is_kind(second.kind, Kind::Override) {
            ahead = after;
        } else {
            return ahead;
        }
    }
    match ahead {
        [first] if is_modifying(first.kind) => behind(ahead),
        _ => ahead,
    }
}

fn names_method(symbols: &[Symbol]) -> bool
    ensures { result ≡ method_named (symbols_seen symbols.now) }
{
    is_name(first_kind(symbols)) && is_kind(first_kind(behind(symbols)), Kind::OpenParen)
}

/// Whether `void` stands here, or a type and a name before a parameter list.
#[tactic(auto, unfolding(crate::specs::Prediction::heads_method))]
pub fn heads_method(symbols: &[Symbol]) -> bool
    ensures { result ≡ method_heads (symbols_seen symbols.now) }
{
    is_kind(first_kind(symbols), Kind::Void)
        || (is_element(first_kind(symbols)) && names_method(past_pairs(behind(symbols))))
}

/// Whether an interface begins here, if a declaration does.
#[tactic(auto, unfolding(crate::specs::Prediction::heads_interface))]
pub fn heads_interface(symbols: &[Symbol]) -> bool
    ensures { result ≡ interface_heads (symbols_seen symbols.now) }
{
    is_kind(first_kind(past_modifiers(symbols)), Kind::Interface)
}

/// Whether a declaration of variables begins here, if a statement does.
#[tactic(auto, unfolding(crate::specs::Prediction::declares))]
pub fn declares(symbols: &[Symbol]) -> bool
    ensures { result ≡ declaring (symbols_seen symbols.now) }
{
    let first = first_kind(symbols);
    let second = first_kind(behind(symbols));
    let third = first_kind(behind(behind(symbols)));
    (is_kind(first, Kind::Final) || is_kind(first, Kind::Prim))
        || (is_name(first)
            && (is_name(second)
                || (is_kind(second, Kind::OpenBracket) && is_kind(third, Kind::CloseBracket))))
}

fn begins_operand(kind: Kind) -> bool
    ensures { result ≡ operand_begins kind }
{
    matches!(
        kind,
        Kind::Word
            | Kind::Override
            | Kind::Literal
            | Kind::This
            | Kind::Super
            | Kind::New
            | Kind::OpenParen
            | Kind::Flip
    )
}

#[tactic(auto, unfolding(crate::specs::Prediction::casts_to_name))]
fn casts_to_name(symbols: &[Symbol]) -> bool
    ensures { result ≡ casting_to_name (symbols_seen symbols.now) }
{
    let first = first_kind(symbols);
    let second = first_kind(behind(symbols));
    (is_kind(first, Kind::OpenBracket) && is_kind(second, Kind::CloseBracket))
        || (is_kind(first, Kind::CloseParen) && begins_operand(second))
}

/// Whether a cast begins here, if an expression does.
#[tactic(auto, unfolding(crate::specs::Prediction::casts))]
pub fn casts(symbols: &[Symbol]) -> bool
    ensures { result ≡ casting (symbols_seen symbols.now) }
{
    let second = first_kind(behind(symbols));
    is_kind(first_kind(symbols), Kind::OpenParen)
        && (is_kind(second, Kind::Prim)
            || (is_name(second) && casts_to_name(behind(behind(symbols)))))
}
