//! Loops: their turns, each with its condition (JLS 14.12 to 14.14). Each turn takes a step, so the steps that are left are turns enough.

ghost use Rattle.std.specs.Prelude.{◌≡◌, ℕ, suc, IfOk, OnOk};
ghost use Rattle.wy_kernel.specs.Program as kernel;
ghost use Rattle.wy_kernel.specs.View.{act, statement};
ghost use Rattle.wy_meaning.specs.Statement.{exec_act};
ghost use Rattle.wy_operands.specs.Values.{Values};
ghost use Rattle.wy_state.specs.Agrees.{Onward};
ghost use Rattle.wy_steps.specs.Sets.{nothing};
ghost use Rattle.wy_steps.specs.State.{Run};
ghost use Rattle.wy_work.specs.Tasks.{Does, pushed};
ghost use Rattle.wy_work.specs.Machines.{standing};
ghost use Rattle.wy_work.specs.Statements.{IsDo, IsFor, counted, emptied, looping, stmt_step};
ghost use Rattle.wy_work.specs.declared.task.ExprStep.TheVariants as expr_steps;
ghost use Rattle.wy_work.specs.declared.task.Task.TheVariants as tasks;
ghost use Rattle.wy_work.specs.declared.task.StmtStep.TheVariants as step;

use crate::machine::Machine;
use crate::task::{ExprStep, StmtStep, Task};
use std::alloc::AllocError;
use wy_kernel::form::{Expr, Stmt, StmtForm};
use wy_state::parts::{Halt, Limit};
use wy_state::register::Register;

impl<'a, R: Register> Machine<'a, R> {
    pub fn act_loop(&mut self, stmt: &'a Stmt) -> Result<(), Halt>
        ensures goes { (p : kernel.Program)
            → Does p (λ w vs. emptied (exec_act w stmt.now.site stmt.now.reach (act stmt.now.form)))
            (standing R.keeps R.kept self.old) result (standing R.keeps R.kept self.new) }
    {
        match &stmt.form {
            StmtForm::While { .. } => self.begin_turns(stmt),
            StmtForm::Do { body, .. } => self.begin_do(stmt, &**body),
            StmtForm::For { inits, .. } => {
                self.push_stmt(stmt, StmtStep::Loop)?;
                self.push(Task::Stmts {
                    stmts: inits.as_slice(),
                })?;
                Ok(())
            }
            _ => Err(Halt::Memory),
        }
    }

    /// One turn more than there are steps left.
    fn turns(&self) -> Result<u32, AllocError>
        ensures { (p : kernel.Program) (next : ℕ → Run nothing Values) → IfOk result (λ n. Onward p
            (standing R.keeps R.kept self.now).state (counted next)
            (standing R.keeps R.kept self.now).state (next n)) }
    {
        let left = self.state.steps_left();
        if left == u32::MAX {
            return Err(AllocError);
        }
        Ok(left + 1)
    }

    /// The body of a `do` comes before its turns.
    fn begin_do(&mut self, stmt: &'a Stmt, body: &'a Stmt) -> Result<(), Halt>
        ensures goes { (p : kernel.Program) → IsDo stmt.now.form body.now
            → Does p (λ w vs. emptied (exec_act w stmt.now.site stmt.now.reach (act stmt.now.form)))
            (standing R.keeps R.kept self.old) result (standing R.keeps R.kept self.new) }
    {
        let turns = self.turns()?;
        self.push_stmt(stmt, StmtStep::Turn { turns })?;
        self.push_stmt(body, StmtStep::Do)?;
        Ok(())
    }

    /// The turns of a loop begin.
    pub fn begin_turns(&mut self, stmt: &'a Stmt) -> Result<(), Halt>
        ensures goes { (p : kernel.Program) → Does p
            (λ w. stmt_step w (statement stmt.now) step.Loop)
            (standing R.keeps R.kept self.old) result (standing R.keeps R.kept self.new) }
    {
        let turns = self.turns()?;
        self.push_stmt(stmt, StmtStep::Turn { turns })?;
        Ok(())
    }

    /// A turn begins with its condition.
    pub fn turn_loop(&mut self, stmt: &'a Stmt, turns: u32) -> Result<(), Halt>
        ensures goes { (p : kernel.Program) → Does p
            (λ w. stmt_step w (statement stmt.now) (step.Turn turns))
            (standing R.keeps R.kept self.old) result (standing R.keeps R.kept self.new) }
    {
        if turns == 0 {
            return Err(Halt::Stopped(Limit::Steps));
        }
        match &stmt.form {
            StmtForm::While { test, .. } => Ok(self.push_condition(stmt, test, turns - 1)?),
            StmtForm::Do { test, .. } => Ok(self.push_condition(stmt, test, turns - 1)?),
            StmtForm::For { test, .. } => self.turn_for(stmt, test, turns - 1),
            _ => Err(Halt::Memory),
        }
    }

    /// A turn of a `for`, which may have no condition.
    fn turn_for(&mut self, stmt: &'a Stmt, test: &'a Option<Expr>, turns: u32) -> Result<(), Halt>
        ensures goes { (p : kernel.Program) (k : ℕ) → k ≡ suc turns → IsFor stmt.now.form test.now
            → Does p (λ w. stmt_step w (statement stmt.now) (step.Turn k))
            (standing R.keeps R.kept self.old) result (standing R.keeps R.kept self.new) }
    {
        match test {
            Some(test) => Ok(self.push_condition(stmt, test, turns)?),
            None => self.loop_on(stmt, turns),
        }
    }

    /// The condition comes first, and then what it decides.
    fn push_condition(
        &mut self,
        stmt: &'a Stmt,
        test: &'a Expr,
        turns: u32,
    ) -> Result<(), AllocError>
        ensures { OnOk result (standing R.keeps R.kept self.new
            ≡ pushed (tasks.Expr test.entry expr_steps.Find)
            (pushed (tasks.Stmt stmt.entry (step.Decide turns))
            (standing R.keeps R.kept self.old))) }
    {
        self.push_stmt(stmt, StmtStep::Decide { turns })?;
        self.push_expr(test, ExprStep::Find)
    }

    /// The condition of a turn is there.
    pub fn decide_turn(&mut self, stmt: &'a Stmt, turns: u32) -> Result<(), Halt>
        ensures goes { (p : kernel.Program) → Does p
            (λ w. stmt_step w (statement stmt.now) (step.Decide turns))
            (standing R.keeps R.kept self.old) result (standing R.keeps R.kept self.new) }
    {
        if self.test(stmt)? {
            return self.loop_on(stmt, turns);
        }
        Ok(())
    }

    /// The body of a loop, and the turns after it.
    fn loop_on(&mut self, stmt: &'a Stmt, turns: u32) -> Result<(), Halt>
        ensures goes { (p : kernel.Program) → Does p
            (λ w vs. emptied (looping w (statement stmt.now) turns))
            (standing R.keeps R.kept self.old) result (standing R.keeps R.kept self.new) }
    {
        self.push_stmt(stmt, StmtStep::Turn { turns })?;
        match &stmt.form {
            StmtForm::While { body, .. } => self.push_stmt(&**body, StmtStep::Do)?,
            StmtForm::Do { body, .. } => self.push_stmt(&**body, StmtStep::Do)?,
            StmtForm::For { updates, body, .. } => {
                self.push(Task::Stmts {
                    stmts: updates.as_slice(),
                })?;
                self.push_stmt(&**body, StmtStep::Do)?;
            }
            _ => return Err(Halt::Memory),
        }
        Ok(())
    }
}
