//! The statements that a form immediately contains, in the order of the text (JLS 14). Whoever goes through all
//! statements goes by these, so that a form is opened for it here alone.

ghost use Rattle.std.specs.Prelude.{◌≡◌, ◌++◌, map};
ghost use Rattle.std.specs.Iterator.{YieldsFirstBy, item_count};
ghost use Rattle.std.specs.List.{flat_map};
ghost use Rattle.wy_kernel.specs.Statements.{statements, statements_of_other, statements_within};
ghost use Rattle.wy_kernel.specs.Substatements.{statement_seen, to_come};
ghost use Rattle.wy_kernel.specs.View.{act, other, statement};

use crate::form::{Catch, Stmt, StmtForm};
use std::slice::from_ref;

/// Those to come: of a row, the blocks of clauses, and two rows more.
#[derive(Drop)]
pub struct Substatements<'a> {
    row: &'a [Stmt],
    catches: &'a [Catch],
    next_row: &'a [Stmt],
    last_row: &'a [Stmt],
}

impl<'a> Iterator for Substatements<'a> {
    type Item = &'a Stmt;

    ghost next_gives = { YieldsFirstBy statement_seen to_come };

    ghost remaining = { item_count to_come };

    fn next(&mut self) -> Option<&'a Stmt> {
        if let Some((s, rest)) = self.row.split_first() {
            self.row = rest;
            return Some(s);
        }
        if let Some((clause, rest)) = self.catches.split_first() {
            self.catches = rest;
            return Some(&clause.block);
        }
        if let Some((s, rest)) = self.next_row.split_first() {
            self.next_row = rest;
            return Some(s);
        }
        let (s, rest) = self.last_row.split_first()?;
        self.last_row = rest;
        Some(s)
    }
}

fn rows<'a>(row: &'a [Stmt], next_row: &'a [Stmt], last_row: &'a [Stmt]) -> Substatements<'a>
    ensures { to_come result
        ≡ map statement row.now ++ (map statement next_row.now ++ map statement last_row.now) }
{
    Substatements {
        row,
        catches: &[],
        next_row,
        last_row,
    }
}

fn row_of(s: &Option<Box<Stmt>>) -> &[Stmt]
    ensures { flat_map statements (map statement result.now) ≡ statements_of_other (other s.now) }
{
    match s {
        Some(s) => from_ref(s),
        None => &[],
    }
}

impl StmtForm {
    /// The statements that a form immediately contains.
    pub fn substatements(&self) -> Substatements<'_>
        ensures { flat_map statements (to_come result) ≡ statements_within (act self.now) }
    {
        match self {
            StmtForm::Block { parts } => rows(parts, &[], &[]),
            StmtForm::If { yes, no, .. } => rows(from_ref(yes), row_of(no), &[]),
            StmtForm::While { body, .. }
            | StmtForm::Do { body, .. }
            | StmtForm::Labelled { body } => { rows(from_ref(body), &[], &[]) }
            StmtForm::For {
                inits,
                updates,
                body,
                ..
            } => rows(inits, updates, from_ref(body)),
            StmtForm::Try {
                first,
                catches,
                last,
            } => Substatements {
                row: from_ref(first),
                catches,
                next_row: row_of(last),
                last_row: &[],
            },
            StmtForm::Eval { .. }
            | StmtForm::Declare { .. }
            | StmtForm::Jump { .. }
            | StmtForm::Return { .. }
            | StmtForm::Throw { .. }
            | StmtForm::Print { .. } => rows(&[], &[], &[]),
        }
    }
}
