//! Statements (JLS 14). `token` is the number of the first token of each.

use crate::expression::{Expression, Initial};
use crate::name::{Named, WrittenType};

/// A name that is declared, with the pairs behind it and what it is given first.
#[derive(Drop)]
pub struct Declarator {
    pub name: Named,
    pub brackets: u32,
    pub initial: Option<Initial>,
}

/// What stands first in the parentheses of a `for`.
#[derive(Drop)]
pub enum ForInit {
    Nothing,
    Declared {
        ty: WrittenType,
        is_final: bool,
        declarators: Vec<Declarator>,
    },
    Effects {
        effects: Vec<Effect>,
    },
}

/// An expression that is a statement, and the number of its first token.
#[derive(Drop)]
pub struct Effect {
    pub value: Expression,
    pub token: u32,
}

/// Statements between braces, with the numbers of the braces.
#[derive(Drop)]
#[cycle(statement)]
pub struct Block {
    pub brace: u32,
    pub parts: Vec<Statement>,
    pub end: u32,
}

/// A clause of a `try`.
#[derive(Drop)]
#[cycle(statement)]
pub struct Catch {
    pub is_final: bool,
    pub class: Named,
    pub name: Named,
    pub block: Block,
}

/// A statement.
#[derive(Drop)]
#[cycle(statement)]
pub enum Statement {
    Block {
        block: Block,
    },
    Empty {
        token: u32,
    },
    Declare {
        is_final: bool,
        ty: WrittenType,
        declarators: Vec<Declarator>,
    },
    Effect {
        effect: Effect,
    },
    If {
        test: Expression,
        main: Box<Statement>,
        other: Option<Box<Statement>>,
        token: u32,
    },
    While {
        test: Expression,
        body: Box<Statement>,
        token: u32,
    },
    Do {
        body: Box<Statement>,
        test: Expression,
        token: u32,
    },
    For {
        init: ForInit,
        test: Option<Expression>,
        updates: Vec<Effect>,
        body: Box<Statement>,
        token: u32,
    },
    Labelled {
        name: Named,
        body: Box<Statement>,
    },
    Break {
        label: Option<Named>,
        token: u32,
    },
    Continue {
        label: Option<Named>,
        token: u32,
    },
    Return {
        value: Option<Expression>,
        token: u32,
    },
    Throw {
        value: Expression,
        token: u32,
    },
    Try {
        main: Block,
        catches: Vec<Catch>,
        last: Option<Block>,
        token: u32,
    },
    /// No statement: a well-formed tree has none.
    Wrong,
}
