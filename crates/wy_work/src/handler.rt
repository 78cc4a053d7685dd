//! `try`: clauses that catch, and a last block that runs however the rest ended (JLS 14.20).

ghost use Rattle.std.specs.Prelude.{◌≡◌};
ghost use Rattle.wy_kernel.specs.Parts.{program_of};
ghost use Rattle.wy_kernel.specs.Program as kernel;
ghost use Rattle.wy_state.specs.Seen.{reason_of};
ghost use Rattle.wy_steps.specs.State.{leave, return};
ghost use Rattle.wy_work.specs.Tasks.{Does, Ends};
ghost use Rattle.wy_work.specs.Handlers.{caught_by};
ghost use Rattle.wy_work.specs.Machines.{standing};
ghost use Rattle.wy_work.specs.Statements.{emptied};
ghost use Rattle.wy_work.specs.declared.task.Task.TheVariants as tasks;
ghost use Rattle.wy_work.specs.declared.task.StmtStep.TheVariants as step;

use crate::machine::Machine;
use crate::task::{Step, StmtStep};
use wy_calls::Dispatcher;
use wy_event::record::{Kind, Use};
use wy_kernel::code::class_of_type;
use wy_kernel::form::{Catch, Stmt, StmtForm};
use wy_operation::clause::find_clause;
use wy_state::parts::{Draft, Halt, Reason};
use wy_state::register::Register;
use wy_value::Value;

impl<'a, R: Register> Machine<'a, R> {
    /// The first block and the clauses ended normally, and the last block runs.
    pub fn finish_last(&mut self, stmt: &'a Stmt) -> Result<(), Halt>
        ensures goes { (p : kernel.Program) → Ends p (tasks.Stmt stmt.entry step.Finally)
            (return (standing R.keeps R.kept self.old).values)
            (standing R.keeps R.kept self.old) result (standing R.keeps R.kept self.new) }
    {
        self.stack.clear();
        let StmtForm::Try { last, .. } = &stmt.form else {
            return Err(Halt::Memory);
        };
        let Some(last) = last else {
            return Err(Halt::Memory);
        };
        self.push_stmt(&**last, StmtStep::Do)?;
        Ok(())
    }

    /// The first block was left: a clause takes what was thrown.
    pub fn handle(&mut self, on: &Dispatcher<'a>, stmt: &'a Stmt, why: Reason) -> Result<(), Halt>
        ensures goes { Ends (program_of on.now.program.now) (tasks.Stmt stmt.entry step.Catch)
            (leave (reason_of why))
            (standing R.keeps R.kept self.old) result (standing R.keeps R.kept self.new) }
    {
        let StmtForm::Try { catches, .. } = &stmt.form else {
            return Err(Halt::Memory);
        };
        let Reason::Threw { event, value } = why else {
            return Err(Halt::Left(why));
        };
        let class = class_of_type(self.state.type_of(value)?);
        match find_clause(self.state.alloc, on.program, catches.as_slice(), class)? {
            Some(clause) => self.caught(clause, event, value),
            None => Err(Halt::Left(why)),
        }
    }

    /// What was left goes on being left once the last block is done.
    pub fn handle_last(&mut self, stmt: &'a Stmt, why: Reason) -> Result<(), Halt>
        ensures goes { (p : kernel.Program) → Ends p (tasks.Stmt stmt.entry step.Finally)
            (leave (reason_of why))
            (standing R.keeps R.kept self.old) result (standing R.keeps R.kept self.new) }
    {
        let StmtForm::Try { last, .. } = &stmt.form else {
            return Err(Halt::Memory);
        };
        let Some(last) = last else {
            return Err(Halt::Memory);
        };
        self.stack.clear();
        self.push_step(Step::Again { why })?;
        self.push_stmt(&**last, StmtStep::Do)?;
        Ok(())
    }

    /// The Catch binds the object, and is active until the block ends.
    fn caught(&mut self, clause: &'a Catch, event: u32, value: Value) -> Result<(), Halt>
        ensures goes { (p : kernel.Program) → Does p
            (λ w vs. emptied (caught_by w clause.now event value))
            (standing R.keeps R.kept self.old) result (standing R.keeps R.kept self.new) }
    {
        self.stack.clear();
        self.state.begin_early(clause.block.number)?;
        let slot = self.state.local(clause.local);
        let draft = Draft::into_slot(Kind::Catch, clause.site, slot, value);
        let number = self.state.note_write(draft, &[Use::Value { event }])?;
        self.state.activate_through(number, clause.block.number)?;
        self.push_stmt(&clause.block, StmtStep::Do)?;
        Ok(())
    }
}
