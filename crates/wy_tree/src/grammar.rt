//! The words in which the grammar is written (JLS 18, restated): a rule is a list of items.
//! What the rules are stands in `specs/Grammar.antt`.

use crate::kind::Kind;

/// Kinds of tokens that may stand at one place.
#[derive(Clone, Copy, Debug)]
pub enum Class {
    Exactly(Kind),
    /// Any identifier.
    Name,
    /// A primitive type or an identifier.
    Element,
    /// A modifier that is one token.
    Modifying,
    /// An assignment operator.
    Setting,
    /// A unary operator but the minus sign.
    Prefixing,
    /// `this` or `super`.
    Own,
}

/// What a tree is read as: a production, a level of binary operators,
/// or what is said beside it.
#[derive(Clone, Copy, Debug)]
pub enum Sort {
    Unit,
    /// A class, an interface or `;`.
    Declaration,
    Class,
    Interface,
    Mod,
    Member,
    Params,
    Param,
    Throws,
    Result,
    Type,
    /// A name, or a type with brackets.
    RefType,
    Decls,
    Decl,
    Init,
    Block,
    /// A statement that stands directly in a block.
    Local,
    Stmt,
    ForInit,
    Catch,
    Expr,
    /// An expression that is a statement with `;`.
    Effect,
    Cond,
    OrElse,
    AndAlso,
    Or,
    Xor,
    And,
    Equality,
    Relation,
    Shift,
    Sum,
    Product,
    Unary,
    Cast,
    /// The operand of a cast to a reference type.
    Operand,
    Postfix,
    Primary,
    New,
    Args,
}

/// Items between which the text chooses.
#[derive(Clone, Copy, Debug)]
pub enum Row {
    /// `{X}`
    Any(Sort),
    /// `[X]`
    Maybe(Sort),
    /// `[X {"," X}]`
    Series(Sort),
    /// `{"," X}`
    Further(Sort),
    /// `{"," Name}`
    Names,
    /// `{"[" "]"}`
    Brackets,
    /// `["final"]`
    MaybeFinal,
    Declared,
    Superclass,
    Interfaces,
    Supers,
    Methods,
    ModForm,
    MemberForm,
    MemberTail,
    MethodBody,
    OwnCall,
    ResultForm,
    Initial,
    InitForm,
    Elements,
    MoreElements,
    AfterComma,
    LocalForm,
    StmtForm,
    Otherwise,
    Label,
    Handlers,
    Finally,
    ForInitForm,
    Assigned,
    Choice,
    UnaryForm,
    Negated,
    CastForm,
    Steps,
    PrimaryForm,
    NewForm,
    Dimensions,
}

/// One item of a rule.
#[derive(Clone, Copy, Debug)]
pub enum Item {
    One(Class),
    Part(Sort),
    Parts(Row),
}
