//! Operators and primitive types by the texts of their tokens (JLS 3.12, 4.2, 15.15 to 15.22, 15.26.2).

ghost use Rattle.std.specs.Prelude.{◌≡◌};
ghost use Rattle.wy_syntax.specs.Names.{primitive_named, bitwise, comparing, operator, shifting, updating, prefix, is_up};

use wy_kernel::operator::{BinOp, Primitive, UnOp};

/// The primitive type of this name.
#[tactic(auto, unfolding(crate::specs::Names::primitive_named))]
pub fn primitive_named(word: &str) -> Primitive
    ensures { result ≡ primitive_named word.now }
{
    match word {
        "boolean" => Primitive::Bool,
        "byte" => Primitive::Byte,
        "short" => Primitive::Short,
        "char" => Primitive::Char,
        "long" => Primitive::Long,
        _ => Primitive::Int,
    }
}

#[tactic(auto, unfolding(crate::specs::Names::bitwise))]
fn bitwise(sign: &str) -> BinOp
    ensures { result ≡ bitwise sign.now }
{
    if sign == "&" {
        BinOp::And
    } else if sign == "|" {
        BinOp::Or
    } else if sign == "^" {
        BinOp::Xor
    } else if sign == "<<" {
        BinOp::Shl
    } else if sign == ">>" {
        BinOp::Shr
    } else {
        BinOp::Ushr
    }
}

#[tactic(auto, unfolding(crate::specs::Names::comparing))]
fn comparing(sign: &str) -> BinOp
    ensures { result ≡ comparing sign.now }
{
    if sign == "==" {
        BinOp::Eq
    } else if sign == "!=" {
        BinOp::Ne
    } else if sign == "<" {
        BinOp::Lt
    } else if sign == ">" {
        BinOp::Gt
    } else if sign == "<=" {
        BinOp::Le
    } else if sign == ">=" {
        BinOp::Ge
    } else {
        bitwise(sign)
    }
}

/// The binary operator of a sign.
#[tactic(auto, unfolding(crate::specs::Names::operator))]
pub fn operator(sign: &str) -> BinOp
    ensures { result ≡ operator sign.now }
{
    if sign == "+" {
        BinOp::Add
    } else if sign == "-" {
        BinOp::Sub
    } else if sign == "*" {
        BinOp::Mul
    } else if sign == "/" {
        BinOp::Div
    } else if sign == "%" {
        BinOp::Rem
    } else {
        comparing(sign)
    }
}

#[tactic(auto, unfolding(crate::specs::Names::shifting))]
fn shifting(sign: &str) -> BinOp
    ensures { result ≡ shifting sign.now }
{
    if sign == "<<=" {
        BinOp::Shl
    } else if sign == ">>=" {
        BinOp::Shr
    } else if sign == ">>>=" {
        BinOp::Ushr
    } else if sign == "&=" {
        BinOp::And
    } else if sign == "|=" {
        BinOp::Or
    } else {
        BinOp::Xor
    }
}

/// The operator of a compound assignment.
#[tactic(auto, unfolding(crate::specs::Names::updating))]
pub fn updating(sign: &str) -> BinOp
    ensures { result ≡ updating sign.now }
{
    if sign == "+=" {
        BinOp::Add
    } else if sign == "-=" {
        BinOp::Sub
    } else if sign == "*=" {
        BinOp::Mul
    } else if sign == "/=" {
        BinOp::Div
    } else if sign == "%=" {
        BinOp::Rem
    } else {
        shifting(sign)
    }
}

/// The unary operator of a sign.
#[tactic(auto, unfolding(crate::specs::Names::prefix))]
pub fn prefix(sign: &str) -> UnOp
    ensures { result ≡ prefix sign.now }
{
    if sign == "+" {
        UnOp::Plus
    } else if sign == "-" {
        UnOp::Minus
    } else if sign == "~" {
        UnOp::Flip
    } else {
        UnOp::Not
    }
}

/// Whether a step goes up.
#[tactic(auto, unfolding(crate::specs::Names::is_up))]
pub fn is_up(sign: &str) -> bool
    ensures { result ≡ is_up sign.now }
{
    sign == "++"
}
