//! Statements begin here: each takes a step, and ends with the reaches through it (JLS 14).

ghost use Rattle.std.specs.Prelude.{◌≡◌, Bool, OnOk, [], map};
ghost use Rattle.wy_kernel.specs.Parts.{program_of};
ghost use Rattle.wy_kernel.specs.Program as kernel;
ghost use Rattle.wy_kernel.specs.View.{act, statement, statements_of};
ghost use Rattle.wy_kernel.specs.declared.form.StmtForm.TheVariants as forms;
ghost use Rattle.wy_kernel.specs.declared.types.Ty.{Ty};
ghost use Rattle.wy_meaning.specs.Statement.{exec, exec_act, exec_all, tested};
ghost use Rattle.wy_operands.specs.Values.{Values, top};
ghost use Rattle.wy_steps.specs.Sets.{nothing};
ghost use Rattle.wy_steps.specs.State.{Run, return};
ghost use Rattle.wy_work.specs.Tasks.{Does, Turned, followed, pushed, then_all};
ghost use Rattle.wy_work.specs.Machines.{standing};
ghost use Rattle.wy_work.specs.Statements.{IsIf, IsTry, emptied, stmt_step};
ghost use Rattle.wy_work.specs.declared.task.ExprStep.TheVariants as expr_steps;
ghost use Rattle.wy_work.specs.declared.task.Task.TheVariants as tasks;
ghost use Rattle.wy_work.specs.declared.task.StmtStep.TheVariants as step;

use crate::machine::Machine;
use crate::task::{ExprStep, Step, StmtStep, Task};
use std::alloc::AllocError;
use wy_calls::Dispatcher;
use wy_kernel::form::{Expr, Stmt, StmtForm};
use wy_operation::ending::{jump, return_value, throw_value};
use wy_operation::test_event::test;
use wy_operation::texts::{print_nothing, print_text};
use wy_state::parts::Halt;
use wy_state::register::Register;
use wy_value::Value;

impl<'a, R: Register> Machine<'a, R> {
    /// Begins a statement, which takes a step.
    pub fn begin(&mut self, stmt: &'a Stmt) -> Result<(), Halt>
        ensures goes { (p : kernel.Program)
            → Does p (λ w vs. emptied (exec w (statement stmt.now)))
            (standing R.keeps R.kept self.old) result (standing R.keeps R.kept self.new) }
    {
        self.state.tick()?;
        self.state.begin(stmt.number)?;
        self.push_step(Step::End {
            statement: stmt.number,
        })?;
        self.act(stmt)
    }

    /// Begins the first of statements, before the others.
    pub fn begin_all(&mut self, stmts: &'a [Stmt]) -> Result<(), Halt>
        ensures goes { (p : kernel.Program)
            → Does p (λ w vs. emptied (exec_all w (statements_of (map statement stmts.now))))
            (standing R.keeps R.kept self.old) result (standing R.keeps R.kept self.new) }
    {
        match stmts.split_first() {
            None => {
                self.stack.clear();
                Ok(())
            }
            Some((first, rest)) => {
                self.push(Task::Stmts { stmts: rest })?;
                self.begin(first)
            }
        }
    }

    /// Does what a statement does, within its begin and its end.
    fn act(&mut self, stmt: &'a Stmt) -> Result<(), Halt>
        ensures goes { (p : kernel.Program)
            → Does p (λ w vs. emptied (exec_act w stmt.now.site stmt.now.reach (act stmt.now.form)))
            (standing R.keeps R.kept self.old) result (standing R.keeps R.kept self.new) }
    {
        match &stmt.form {
            StmtForm::Block { parts } => self.push(Task::Stmts {
                stmts: parts.as_slice(),
            })?,
            StmtForm::Eval { value } => self.within(stmt, value)?,
            StmtForm::Declare { local } => {
                self.state.declare(*local)?;
                self.stack.clear();
            }
            StmtForm::If { test, .. } => self.within(stmt, test)?,
            StmtForm::Labelled { body } => self.push_stmt(&**body, StmtStep::Do)?,
            StmtForm::Throw { value } => self.within(stmt, value)?,
            _ => return self.act_more(stmt),
        }
        Ok(())
    }

    fn act_more(&mut self, stmt: &'a Stmt) -> Result<(), Halt>
        ensures goes { (p : kernel.Program)
            → Does p (λ w vs. emptied (exec_act w stmt.now.site stmt.now.reach (act stmt.now.form)))
            (standing R.keeps R.kept self.old) result (standing R.keeps R.kept self.new) }
    {
        match &stmt.form {
            StmtForm::Jump { target } => Err(jump(&mut self.state, stmt.site, *target)),
            StmtForm::Return { value } => self.act_return(stmt, value),
            StmtForm::Print {
                operand,
                ends_line,
                site,
                ..
            } => self.act_print(stmt, operand, *ends_line, *site),
            StmtForm::Try { first, last, .. } => self.act_try(stmt, &**first, last),
            _ => self.act_loop(stmt),
        }
    }

    fn act_return(&mut self, stmt: &'a Stmt, value: &'a Option<Expr>) -> Result<(), Halt>
        ensures goes { (p : kernel.Program) → stmt.now.form ≡ forms.Return value.now
            → Does p (λ w vs. emptied (exec_act w stmt.now.site stmt.now.reach (act stmt.now.form)))
            (standing R.keeps R.kept self.old) result (standing R.keeps R.kept self.new) }
    {
        match value {
            Some(value) => Ok(self.within(stmt, value)?),
            None => Err(return_value(&mut self.state, stmt.site, Value::None, &[])),
        }
    }

    fn act_print(
        &mut self,
        stmt: &'a Stmt,
        operand: &'a Option<Expr>,
        ends_line: bool,
        site: u32,
    ) -> Result<(), Halt>
        ensures goes { (p : kernel.Program) (ty : Ty)
            → stmt.now.form ≡ forms.Print operand.now ty ends_line site
            → Does p (λ w vs. emptied (exec_act w stmt.now.site stmt.now.reach (act stmt.now.form)))
            (standing R.keeps R.kept self.old) result (standing R.keeps R.kept self.new) }
    {
        match operand {
            Some(operand) => Ok(self.within(stmt, operand)?),
            None => {
                print_nothing(&mut self.state, ends_line, site)?;
                self.stack.clear();
                Ok(())
            }
        }
    }

    fn act_try(
        &mut self,
        stmt: &'a Stmt,
        first: &'a Stmt,
        last: &'a Option<Box<Stmt>>,
    ) -> Result<(), Halt>
        ensures goes { (p : kernel.Program) → IsTry stmt.now.form first.now last.now
            → Does p (λ w vs. emptied (exec_act w stmt.now.site stmt.now.reach (act stmt.now.form)))
            (standing R.keeps R.kept self.old) result (standing R.keeps R.kept self.new) }
    {
        match last {
            None => {
                self.push_stmt(stmt, StmtStep::Catch)?;
                self.push_stmt(first, StmtStep::Do)?;
                Ok(())
            }
            Some(_) => {
                self.push_stmt(stmt, StmtStep::Finally)?;
                self.push_stmt(stmt, StmtStep::Catch)?;
                self.push_stmt(first, StmtStep::Do)?;
                Ok(())
            }
        }
    }

    /// An expression of a statement comes first.
    pub fn within(&mut self, stmt: &'a Stmt, part: &'a Expr) -> Result<(), AllocError>
        ensures { OnOk result (standing R.keeps R.kept self.new
            ≡ pushed (tasks.Expr part.entry expr_steps.Find)
            (pushed (tasks.Stmt stmt.entry step.Operate)
            (standing R.keeps R.kept self.old))) }
    {
        self.push_stmt(stmt, StmtStep::Operate)?;
        self.push_expr(part, ExprStep::Find)
    }

    /// The value of the statement's expression is there.
    pub fn act_on(&mut self, on: &Dispatcher<'a>, stmt: &'a Stmt) -> Result<(), Halt>
        ensures goes { Does (program_of on.now.program.now)
            (λ w. stmt_step w (statement stmt.now) step.Operate)
            (standing R.keeps R.kept self.old) result (standing R.keeps R.kept self.new) }
    {
        match &stmt.form {
            StmtForm::Eval { .. } => {
                self.stack.clear();
                Ok(())
            }
            StmtForm::If { yes, no, .. } => self.act_if(stmt, &**yes, no),
            StmtForm::Return { .. } => {
                let value = self.stack.top();
                Err(return_value(&mut self.state, stmt.site, value, self.stack.last_uses(1)))
            }
            StmtForm::Throw { .. } => {
                let value = self.stack.top();
                Err(throw_value(&mut self.state, stmt.site, value, self.stack.last_uses(1)))
            }
            StmtForm::Print { site, .. } => {
                self.push_stmt(stmt, StmtStep::Print)?;
                self.show(on, 0, *site)
            }
            _ => Err(Halt::Memory),
        }
    }

    /// The side of an `if` that the condition chooses begins.
    fn act_if(
        &mut self,
        stmt: &'a Stmt,
        yes: &'a Stmt,
        no: &'a Option<Box<Stmt>>,
    ) -> Result<(), Halt>
        ensures goes { (p : kernel.Program) → IsIf stmt.now.form yes.now no.now
            → Does p (λ w. stmt_step w (statement stmt.now) step.Operate)
            (standing R.keeps R.kept self.old) result (standing R.keeps R.kept self.new) }
    {
        if self.test(stmt)? {
            self.push_stmt(yes, StmtStep::Do)?;
            return Ok(());
        }
        match no {
            Some(no) => {
                self.push_stmt(&**no, StmtStep::Do)?;
                Ok(())
            }
            None => Ok(()),
        }
    }

    /// The text of what is printed is there.
    pub fn print(&mut self, on: &Dispatcher<'a>, stmt: &'a Stmt) -> Result<(), Halt>
        ensures goes { Does (program_of on.now.program.now)
            (λ w. stmt_step w (statement stmt.now) step.Print)
            (standing R.keeps R.kept self.old) result (standing R.keeps R.kept self.new) }
    {
        let StmtForm::Print {
            ends_line,
            site,
            ..
        } = &stmt.form
        else {
            return Err(Halt::Memory);
        };
        let value = self.stack.top();
        print_text(
            &mut self.state,
            on.program,
            value,
            self.stack.last_uses(1),
            *ends_line,
            *site,
        )?;
        self.stack.clear();
        Ok(())
    }

    /// Records the Test of the last value, which it takes off with all others.
    pub fn test(&mut self, stmt: &'a Stmt) -> Result<bool, Halt>
        ensures goes { (p : kernel.Program) (next : Bool → Run nothing Values)
            → Turned p (then_all p (standing R.keeps R.kept self.old)
            (followed (tested stmt.now.site stmt.now.reach
            (return (top (standing R.keeps R.kept self.old).values))) next))
            (standing R.keeps R.kept self.old).state result
            (standing R.keeps R.kept self.new) next }
        ensures cleared { OnOk result ((standing R.keeps R.kept self.new).values ≡ []) }
        ensures depth { self.new.depth ≡ self.old.depth }
    {
        let value = self.stack.top();
        let holds = test(
            &mut self.state,
            stmt.site,
            stmt.reach,
            value,
            self.stack.last_uses(1),
        )?;
        self.stack.clear();
        Ok(holds)
    }
}
