//! Expressions (JLS 15), each with the number of one of its tokens: its site where a record or a refusal names it.

use crate::name::{Named, WrittenBase, WrittenType};
use wy_kernel::operator::{BinOp, UnOp};
use wy_tree::token::Token;

/// An expression. `token` is the number of its operator, of its name, or of its first token; in a call that of its `(`.
#[derive(Drop)]
#[cycle(expression)]
pub enum Expression {
    Literal {
        value: Token,
        token: u32,
    },
    Name {
        name: String,
        token: u32,
    },
    This {
        token: u32,
    },
    /// An expression in parentheses.
    Group {
        inner: Box<Expression>,
        token: u32,
    },
    /// `name(..)`
    Invoke {
        name: String,
        args: Vec<Expression>,
        token: u32,
    },
    /// `object.name`
    Field {
        object: Box<Expression>,
        name: String,
        token: u32,
    },
    /// `object.name(..)`
    InvokeOn {
        object: Box<Expression>,
        name: String,
        args: Vec<Expression>,
        token: u32,
    },
    /// `super.name`
    SuperField {
        name: String,
        token: u32,
    },
    /// `super.name(..)`
    SuperInvoke {
        name: String,
        args: Vec<Expression>,
        token: u32,
    },
    /// `array[index]`
    Element {
        array: Box<Expression>,
        index: Box<Expression>,
        token: u32,
    },
    /// `new class(..)`
    NewObject {
        class: Named,
        args: Vec<Expression>,
        token: u32,
    },
    /// `new base[..]..[]..`, with so many pairs behind the sizes.
    NewArray {
        base: WrittenBase,
        base_token: u32,
        sizes: Vec<Expression>,
        brackets: u32,
        token: u32,
    },
    /// `new base[]..{ .. }`, with the token of its `{`.
    NewList {
        base: WrittenBase,
        base_token: u32,
        brackets: u32,
        elements: Vec<Element>,
        brace: u32,
        token: u32,
    },
    Unary {
        op: UnOp,
        operand: Box<Expression>,
        token: u32,
    },
    /// `++` and `--`, before or behind a variable.
    Step {
        is_before: bool,
        is_up: bool,
        operand: Box<Expression>,
        token: u32,
    },
    Binary {
        op: BinOp,
        left: Box<Expression>,
        right: Box<Expression>,
        token: u32,
    },
    /// `&&`
    Both {
        left: Box<Expression>,
        right: Box<Expression>,
        token: u32,
    },
    /// `||`
    Either {
        left: Box<Expression>,
        right: Box<Expression>,
        token: u32,
    },
    InstanceOf {
        left: Box<Expression>,
        ty: WrittenType,
        token: u32,
    },
    Cast {
        ty: WrittenType,
        operand: Box<Expression>,
        token: u32,
    },
    /// `test ? main : other`
    Choice {
        test: Box<Expression>,
        main: Box<Expression>,
        other: Box<Expression>,
        token: u32,
    },
    Assign {
        left: Box<Expression>,
        value: Box<Expression>,
        token: u32,
    },
    /// `op=`
    Update {
        op: BinOp,
        left: Box<Expression>,
        value: Box<Expression>,
        token: u32,
    },
    /// No expression: a well-formed tree has none.
    Wrong,
}

/// What a variable or an element is given first: a value, or elements in braces (JLS 8.3, 10.6).
#[derive(Drop)]
#[cycle(expression)]
pub enum Initial {
    Value { value: Expression },
    Listed { elements: Vec<Element>, brace: u32 },
}

/// An element in braces, with the number of the token before it.
#[derive(Drop)]
#[cycle(expression)]
pub struct Element {
    pub before: u32,
    pub initial: Initial,
}
