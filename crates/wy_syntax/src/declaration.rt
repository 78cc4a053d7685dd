//! Classes, interfaces and their members (JLS 8, 9).

use crate::expression::Expression;
use crate::name::{Named, WrittenType};
use crate::statement::{Block, Declarator, Statement};

/// A modifier, or `@Override`.
#[derive(Clone, Copy, Debug, PartialEq, Eq)]
pub enum Modifier {
    Public,
    Private,
    Protected,
    Static,
    Final,
    Abstract,
    Override,
}

/// A modifier and the number of its first token.
#[derive(Clone, Copy, Debug, PartialEq, Eq)]
pub struct Placed {
    pub modifier: Modifier,
    pub token: u32,
}

/// A parameter, with the pairs behind its name.
#[derive(Drop)]
pub struct Parameter {
    pub is_final: bool,
    pub ty: WrittenType,
    pub name: Named,
    pub brackets: u32,
}

/// What a method gives: nothing, or a value of a type.
#[derive(Drop)]
pub enum Outcome {
    Nothing,
    Value(WrittenType),
}

/// `this(..)` or `super(..)` at the head of a constructor, with the numbers of its first token and its `(`.
#[derive(Drop)]
pub struct OwnCall {
    pub is_super: bool,
    pub args: Vec<Expression>,
    pub paren: u32,
    pub token: u32,
}

/// What stands before the body of a method or a constructor.
#[derive(Drop)]
pub struct Header {
    pub modifiers: Vec<Placed>,
    pub name: Named,
    pub params: Vec<Parameter>,
    pub throws: Vec<Named>,
}

/// A member of a class or an interface.
#[derive(Drop)]
pub enum Member {
    /// `;`
    Nothing,
    Initializer {
        is_static: bool,
        block: Block,
    },
    Fields {
        modifiers: Vec<Placed>,
        ty: WrittenType,
        declarators: Vec<Declarator>,
    },
    Method {
        header: Header,
        result: Outcome,
        body: Option<Block>,
    },
    Constructor {
        header: Header,
        own_call: Option<OwnCall>,
        brace: u32,
        parts: Vec<Statement>,
        end: u32,
    },
    /// No member: a well-formed tree has none.
    Wrong,
}

/// A class or an interface, and its last token.
#[derive(Drop)]
pub struct ClassSyntax {
    pub is_interface: bool,
    pub modifiers: Vec<Placed>,
    pub name: Named,
    /// The superclass of a class.
    pub above: Option<Named>,
    /// What a class implements, or an interface extends.
    pub interfaces: Vec<Named>,
    pub members: Vec<Member>,
    pub end: u32,
}

/// What stands at the top of a program.
#[derive(Drop)]
pub enum Declaration {
    /// `;`
    Nothing,
    Class(ClassSyntax),
    /// No declaration: a well-formed tree has none.
    Wrong,
}
