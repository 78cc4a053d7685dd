//! The forms themselves: 16 of expressions, 13 of statements, 4 of places (JLS 14, 15).
//! Sites are numbers of tokens. Parentheses and names are gone; a constant expression is one `Const` or `Str`.

use crate::operator::{BinOp, Primitive, UnOp};
use crate::types::{Local, Ty};

/// A constant. A text stands in no form: `Str` has the number of one.
#[derive(Drop)]
pub enum Const {
    Null,
    Bool(bool),
    Byte(i8),
    Short(i16),
    Char(u16),
    Int(i32),
    Long(i64),
    Text(Vec<u16>),
}

/// `?:`, `&&` and `||`.
#[derive(Clone, Copy, Debug, PartialEq, Eq)]
pub enum CondForm {
    Choice,
    And,
    Or,
}

/// A call of a static method, one of a method that is known, and one of a method that the class of the receiver gives.
#[derive(Clone, Copy, Debug, PartialEq, Eq)]
pub enum CallForm {
    Static,
    Direct,
    Chosen,
}

/// Operations of the library. Where one has a receiver, it is the first argument.
#[derive(Clone, Copy, Debug, PartialEq, Eq)]
pub enum LibOp {
    ArrayLength,
    Length,
    IsEmpty,
    CharAt,
    PartFrom,
    Part,
    Same,
    Compare,
    Itself,
    ValueOf,
    ParseInt,
    IntText,
    Abs,
    Max,
    Min,
    ReadByte,
    ClassText,
    ObjectText,
}

/// Where a value is kept.
#[derive(Drop)]
#[cycle(expression)]
pub enum Place {
    Local {
        index: u32,
    },
    Static {
        field: u32,
        site: u32,
    },
    Field {
        object: Box<Expr>,
        field: u32,
        site: u32,
    },
    Elem {
        array: Box<Expr>,
        index: Box<Expr>,
        site: u32,
    },
}

/// An expression.
#[derive(Drop)]
#[cycle(expression)]
pub enum Expr {
    Const {
        value: Const,
    },
    Str {
        text: u32,
    },
    Read {
        place: Place,
    },
    Set {
        place: Place,
        value: Box<Expr>,
        site: u32,
    },
    /// `op=`, `++` and `--`: the last two have no value. `wide` is the type in which the operation is done,
    /// and is none exactly for `+=` on texts.
    Upd {
        place: Place,
        op: BinOp,
        value: Option<Box<Expr>>,
        value_ty: Ty,
        ty: Ty,
        wide: Option<Primitive>,
        gives_old: bool,
        site: u32,
    },
    Un {
        op: UnOp,
        operand: Box<Expr>,
    },
    Bin {
        op: BinOp,
        left: Box<Expr>,
        right: Box<Expr>,
        site: u32,
    },
    Conv {
        to: Primitive,
        operand: Box<Expr>,
    },
    Cast {
        ty: Ty,
        operand: Box<Expr>,
        site: u32,
    },
    InstanceOf {
        ty: Ty,
        operand: Box<Expr>,
    },
    Cond {
        form: CondForm,
        test: Box<Expr>,
        yes: Option<Box<Expr>>,
        no: Option<Box<Expr>>,
        site: u32,
    },
    New {
        class: u32,
        constructor: u32,
        args: Vec<Expr>,
        site: u32,
    },
    /// With dimensions, or with elements and the token before each.
    NewArray {
        ty: Ty,
        dims: Vec<Expr>,
        elements: Vec<Expr>,
        element_sites: Vec<u32>,
        site: u32,
    },
    Call {
        form: CallForm,
        method: u32,
        receiver: Option<Box<Expr>>,
        ty: Ty,
        args: Vec<Expr>,
        site: u32,
    },
    Cat {
        left: Box<Expr>,
        right: Box<Expr>,
        left_ty: Ty,
        right_ty: Ty,
        site: u32,
    },
    Lib {
        op: LibOp,
        args: Vec<Expr>,
        site: u32,
    },
}

/// A statement: `reach` is the statement whose end ends the reach of its tests.
#[derive(Drop)]
#[cycle(statement)]
pub struct Stmt {
    pub number: u32,
    pub site: u32,
    pub askable: bool,
    pub reach: u32,
    pub form: StmtForm,
}

/// What a statement does.
#[derive(Drop)]
#[cycle(statement)]
pub enum StmtForm {
    Block {
        parts: Vec<Stmt>,
    },
    Eval {
        value: Expr,
    },
    Declare {
        local: u32,
    },
    If {
        test: Expr,
        yes: Box<Stmt>,
        no: Option<Box<Stmt>>,
    },
    While {
        test: Expr,
        body: Box<Stmt>,
    },
    Do {
        body: Box<Stmt>,
        test: Expr,
    },
    For {
        inits: Vec<Stmt>,
        test: Option<Expr>,
        updates: Vec<Stmt>,
        body: Box<Stmt>,
    },
    Labelled {
        body: Box<Stmt>,
    },
    Jump {
        target: u32,
    },
    Return {
        value: Option<Expr>,
    },
    Throw {
        value: Expr,
    },
    Try {
        first: Box<Stmt>,
        catches: Vec<Catch>,
        last: Option<Box<Stmt>>,
    },
    Print {
        operand: Option<Expr>,
        ty: Ty,
        ends_line: bool,
        site: u32,
    },
}

/// A clause of a `try`, by the class that it takes and the local that it binds.
#[derive(Drop)]
#[cycle(statement)]
pub struct Catch {
    pub class: u32,
    pub local: u32,
    pub site: u32,
    pub block: Stmt,
}

/// The block of a method or of an initializer, its locals, and the token at its end.
#[derive(Drop)]
pub struct Body {
    pub block: Stmt,
    pub locals: Vec<Local>,
    pub end: u32,
}
