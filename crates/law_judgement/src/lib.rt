//! Each table of a program is judged in one way: its types are below one another or not, and each call means a method or is refused.
//! So what is elaborated by a judgement that follows the rules exists, and is one. The functions do nothing: their contracts are the laws.
#![tactic(auto)]

ghost use Rattle.wy_elab_expr.specs.Operators.{Judgement, Settles};
ghost use Rattle.law_judgement.specs.Laws.{OneJudgement};
ghost use Rattle.wy_table.specs.ClassTable.{table_of};

use wy_table::table::ClassTable;

/// There is a judgement that follows the rules of subtyping and of choice in a table.
pub fn a_table_is_judged(_table: &ClassTable)
    ensures { (j : Judgement) × Settles (table_of _table.now) j }
{}

/// Two judgements that follow the rules in one table are one.
pub fn one_judgement_stands()
    ensures { OneJudgement }
{}
