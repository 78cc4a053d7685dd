//! The kinds of tokens that the grammar tells apart (JLS 3.8 to 3.12).
//! What a literal or a name says beyond its kind is left to later passes.

ghost use Rattle.std.specs.Prelude.{◌≡◌, ◌∷◌, [], map};
ghost use Rattle.wy_tree.specs.Seen.{seen};
ghost use Rattle.wy_tree.specs.Kinds.{kind_of, same, word_kind_of, int_kind_of, long_kind_of, declaring_key_kind, branching_key_kind, leaving_key_kind, typing_key_kind, other_key_kind, bracket_sign_kind, logic_sign_kind, comparing_sign_kind, arithmetic_sign_kind, lone_sign_kind, assigning_sign_kind};

use crate::token::Token;

/// What the grammar sees of a token.
#[derive(Clone, Copy, Debug, PartialEq, Eq)]
pub enum Kind {
    /// An identifier but `Override`.
    Word,
    /// The identifier `Override`.
    Override,
    /// A literal, but for the two that need a minus sign.
    Literal,
    /// The literal 2147483648 or 9223372036854775808L in decimal.
    Big,
    /// The name of a primitive type.
    Prim,
    /// `public`, `private`, `protected` or `abstract`.
    Modifier,
    Static,
    Final,
    At,
    Class,
    Interface,
    Extends,
    Implements,
    Throws,
    Void,
    This,
    Super,
    New,
    If,
    Else,
    While,
    Do,
    For,
    Break,
    Continue,
    Return,
    Throw,
    Try,
    Catch,
    Finally,
    Instanceof,
    OpenParen,
    CloseParen,
    OpenBrace,
    CloseBrace,
    OpenBracket,
    CloseBracket,
    Semicolon,
    Comma,
    Dot,
    /// `=`
    Assign,
    /// `+=` and its kin.
    OpAssign,
    Question,
    Colon,
    /// `||`
    OrElse,
    /// `&&`
    AndAlso,
    Or,
    Xor,
    And,
    /// `==` or `!=`
    Equality,
    /// `<`, `>`, `<=` or `>=`
    Relation,
    Shift,
    Plus,
    Minus,
    /// `*`, `/` or `%`
    Times,
    /// `~` or `!`
    Flip,
    /// `++` or `--`
    Step,
    /// A token that the grammar has no place for.
    Other,
    /// No token.
    Nothing,
}

/// The kind of a token.
#[tactic(auto, unfolding(crate::specs::Kinds::kind_of))]
pub fn kind_at(token: &Token) -> Kind
    ensures { result ≡ kind_of (seen token.now) }
{
    match token {
        Token::Word(text) => word_kind(text.as_str()),
        Token::Key(text) => declaring_key(text.as_str()),
        Token::Int { value, decimal } => int_kind(*value, *decimal),
        Token::Long { value, decimal } => long_kind(*value, *decimal),
        Token::Char(_) | Token::Text(_) => Kind::Literal,
        Token::Sign(text) => bracket_sign(text.as_str()),
    }
}

#[tactic(auto, unfolding(crate::specs::Kinds::word_kind_of))]
fn word_kind(text: &str) -> Kind
    ensures { result ≡ word_kind_of text.now }
{
    if text == "Override" {
        Kind::Override
    } else {
        Kind::Word
    }
}

#[tactic(auto, unfolding(crate::specs::Kinds::int_kind_of))]
fn int_kind(value: u32, decimal: bool) -> Kind
    ensures { result ≡ int_kind_of value decimal }
{
    if decimal && value == 2_147_483_648 {
        Kind::Big
    } else {
        Kind::Literal
    }
}

#[tactic(auto, unfolding(crate::specs::Kinds::long_kind_of))]
fn long_kind(value: u64, decimal: bool) -> Kind
    ensures { result ≡ long_kind_of value decimal }
{
    if decimal && value == 9_223_372_036_854_775_808 {
        Kind::Big
    } else {
        Kind::Literal
    }
}

#[tactic(auto, unfolding(crate::specs::Kinds::declaring_key_kind))]
fn declaring_key(text: &str) -> Kind
    ensures { result ≡ declaring_key_kind text.now }
{
    if text == "class" {
        Kind::Class
    } else if text == "interface" {
        Kind::Interface
    } else if text == "extends" {
        Kind::Extends
    } else if text == "implements" {
        Kind::Implements
    } else if text == "throws" {
        Kind::Throws
    } else if text == "void" {
        Kind::Void
    } else if text == "this" {
        Kind::This
    } else if text == "super" {
        Kind::Super
    } else {
        branching_key(text)
    }
}

#[tactic(auto, unfolding(crate::specs::Kinds::branching_key_kind))]
fn branching_key(text: &str) -> Kind
    ensures { result ≡ branching_key_kind text.now }
{
    if text == "new" {
        Kind::New
    } else if text == "if" {
        Kind::If
    } else if text == "else" {
        Kind::Else
    } else if text == "while" {
        Kind::While
    } else if text == "do" {
        Kind::Do
    } else if text == "for" {
        Kind::For
    } else if text == "break" {
        Kind::Break
    } else if text == "continue" {
        Kind::Continue
    } else {
        leaving_key(text)
    }
}

#[tactic(auto, unfolding(crate::specs::Kinds::leaving_key_kind))]
fn leaving_key(text: &str) -> Kind
    ensures { result ≡ leaving_key_kind text.now }
{
    if text == "return" {
        Kind::Return
    } else if text == "throw" {
        Kind::Throw
    } else if text == "try" {
        Kind::Try
    } else if text == "catch" {
        Kind::Catch
    } else if text == "finally" {
        Kind::Finally
    } else if text == "instanceof" {
        Kind::Instanceof
    } else if text == "static" {
        Kind::Static
    } else if text == "final" {
        Kind::Final
    } else {
        typing_key(text)
    }
}

#[tactic(auto, unfolding(crate::specs::Kinds::typing_key_kind))]
fn typing_key(text: &str) -> Kind
    ensures { result ≡ typing_key_kind text.now }
{
    if text == "public" {
        Kind::Modifier
    } else if text == "private" {
        Kind::Modifier
    } else if text == "protected" {
        Kind::Modifier
    } else if text == "abstract" {
        Kind::Modifier
    } else if text == "boolean" {
        Kind::Prim
    } else if text == "byte" {
        Kind::Prim
    } else if text == "short" {
        Kind::Prim
    } else if text == "char" {
        Kind::Prim
    } else {
        other_key(text)
    }
}

#[tactic(auto, unfolding(crate::specs::Kinds::other_key_kind))]
fn other_key(text: &str) -> Kind
    ensures { result ≡ other_key_kind text.now }
{
    if text == "int" {
        Kind::Prim
    } else if text == "long" {
        Kind::Prim
    } else if text == "true" {
        Kind::Literal
    } else if text == "false" {
        Kind::Literal
    } else if text == "null" {
        Kind::Literal
    } else {
        Kind::Other
    }
}

#[tactic(auto, unfolding(crate::specs::Kinds::bracket_sign_kind))]
fn bracket_sign(text: &str) -> Kind
    ensures { result ≡ bracket_sign_kind text.now }
{
    if text == "(" {
        Kind::OpenParen
    } else if text == ")" {
        Kind::CloseParen
    } else if text == "{" {
        Kind::OpenBrace
    } else if text == "}" {
        Kind::CloseBrace
    } else if text == "[" {
        Kind::OpenBracket
    } else if text == "]" {
        Kind::CloseBracket
    } else if text == ";" {
        Kind::Semicolon
    } else if text == "," {
        Kind::Comma
    } else {
        logic_sign(text)
    }
}

#[tactic(auto, unfolding(crate::specs::Kinds::logic_sign_kind))]
fn logic_sign(text: &str) -> Kind
    ensures { result ≡ logic_sign_kind text.now }
{
    if text == "." {
        Kind::Dot
    } else if text == "@" {
        Kind::At
    } else if text == "=" {
        Kind::Assign
    } else if text == "?" {
        Kind::Question
    } else if text == ":" {
        Kind::Colon
    } else if text == "||" {
        Kind::OrElse
    } else if text == "&&" {
        Kind::AndAlso
    } else if text == "|" {
        Kind::Or
    } else {
        comparing_sign(text)
    }
}

#[tactic(auto, unfolding(crate::specs::Kinds::comparing_sign_kind))]
fn comparing_sign(text: &str) -> Kind
    ensures { result ≡ comparing_sign_kind text.now }
{
    if text == "^" {
        Kind::Xor
    } else if text == "&" {
        Kind::And
    } else if text == "==" {
        Kind::Equality
    } else if text == "!=" {
        Kind::Equality
    } else if text == "<" {
        Kind::Relation
    } else if text == ">" {
        Kind::Relation
    } else if text == "<=" {
        Kind::Relation
    } else if text == ">=" {
        Kind::Relation
    } else {
        arithmetic_sign(text)
    }
}

#[tactic(auto, unfolding(crate::specs::Kinds::arithmetic_sign_kind))]
fn arithmetic_sign(text: &str) -> Kind
    ensures { result ≡ arithmetic_sign_kind text.now }
{
    if text == "<<" {
        Kind::Shift
    } else if text == ">>" {
        Kind::Shift
    } else if text == ">>>" {
        Kind::Shift
    } else if text == "+" {
        Kind::Plus
    } else if text == "-" {
        Kind::Minus
    } else if text == "*" {
        Kind::Times
    } else if text == "/" {
        Kind::Times
    } else if text == "%" {
        Kind::Times
    } else {
        lone_sign(text)
    }
}

#[tactic(auto, unfolding(crate::specs::Kinds::lone_sign_kind))]
fn lone_sign(text: &str) -> Kind
    ensures { result ≡ lone_sign_kind text.now }
{
    if text == "~" {
        Kind::Flip
    } else if text == "!" {
        Kind::Flip
    } else if text == "++" {
        Kind::Step
    } else if text == "--" {
        Kind::Step
    } else if text == "<<=" {
        Kind::OpAssign
    } else if text == ">>=" {
        Kind::OpAssign
    } else if text == ">>>=" {
        Kind::OpAssign
    } else {
        assigning_sign(text)
    }
}

#[tactic(auto, unfolding(crate::specs::Kinds::assigning_sign_kind))]
fn assigning_sign(text: &str) -> Kind
    ensures { result ≡ assigning_sign_kind text.now }
{
    if text == "+=" {
        Kind::OpAssign
    } else if text == "-=" {
        Kind::OpAssign
    } else if text == "*=" {
        Kind::OpAssign
    } else if text == "/=" {
        Kind::OpAssign
    } else if text == "&=" {
        Kind::OpAssign
    } else if text == "|=" {
        Kind::OpAssign
    } else if text == "^=" {
        Kind::OpAssign
    } else if text == "%=" {
        Kind::OpAssign
    } else {
        Kind::Other
    }
}

/// Whether two kinds are the same.
pub fn is_kind(kind: Kind, wanted: Kind) -> bool
    ensures { result ≡ same kind wanted }
{
    kind == wanted
}
