//! What is left to do, as tasks. A task refers to the program and has the small data that it goes on with; the values that it
//! goes on with are on the stack, the last on top.

use wy_calls::Scope;
use wy_event::record::Slot;
use wy_kernel::form::{Expr, Stmt};
use wy_state::parts::Reason;

/// One piece of what is left to do.
#[derive(Drop)]
pub enum Task<'a> {
    Expr { expr: &'a Expr, step: ExprStep },
    /// Puts the values of expressions on the stack, in order.
    Row { exprs: &'a [Expr] },
    Stmt { stmt: &'a Stmt, step: StmtStep },
    /// Does statements one after another.
    Stmts { stmts: &'a [Stmt] },
    Plain { step: Step },
    /// The entries that were active before are active again.
    Close { scope: Scope },
}

/// Where an expression goes on.
#[derive(Clone, Copy)]
pub enum ExprStep {
    /// Puts its value on the stack.
    Find,
    /// The values of its operands are there.
    Operate,
    /// The class that it needs is initialized.
    Ready,
    /// The parts of the place, its old value and the right side are there.
    Assign { slot: Slot },
    /// The parts of the place and the text that `+=` made are there.
    Store { slot: Slot },
    /// The value of the test is there.
    Decide,
    /// The Test as a choice and the value of the arm are there.
    Chosen,
    /// The object, the object as receiver and the arguments are there.
    Construct,
    /// The array is there, and the elements from an index on are to be found.
    Elements { array: u32, index: u32 },
    /// The array and the value of an element are there.
    Element { array: u32, index: u32 },
}

/// Where a statement goes on.
#[derive(Clone, Copy)]
pub enum StmtStep {
    /// Begins it.
    Do,
    /// The value of its expression is there.
    Operate,
    /// The operand of a print and its text are there.
    Print,
    /// A `for` is initialized.
    Loop,
    /// So many turns of a loop are left, from its condition on.
    Turn { turns: u32 },
    /// The condition of a turn is there.
    Decide { turns: u32 },
    /// The first block of a `try` is done, or was left.
    Catch,
    /// The first block and the clauses are done, or were left.
    Finally,
}

/// What goes on without a form.
#[derive(Clone, Copy)]
pub enum Step {
    /// Both operands of `+` and the text of the left one are there.
    ShowRight { site: u32 },
    /// The operands and the texts of both are there.
    Join { site: u32 },
    /// Initializes a class, unless that is going on or done.
    Initialize { class: u32, site: u32 },
    /// The class of main is initialized.
    Main,
    /// The block of a call is done, or was left.
    BodyEnd { returns_none: bool, site: u32 },
    /// The initializers of a class are done, or were left.
    Initialized,
    /// The frame of a call ends: its value goes to the body that called it, in place of so many operands.
    LeaveCall { count: usize },
    /// The frame of an initialization ends.
    LeaveClass,
    /// What was left goes on being left, once a `finally` block is done.
    Again { why: Reason },
    /// Takes the last value off.
    Forget,
    /// The end of a statement.
    End { statement: u32 },
}
