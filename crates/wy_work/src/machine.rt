//! The machine: what stands of a run, what is left to do of it, and the values that it goes on with.

ghost use Rattle.std.specs.Prelude.{◌≡◌, OnOk};
ghost use Rattle.wy_work.specs.Tasks.{pushed};
ghost use Rattle.wy_work.specs.Machines.{standing};
ghost use Rattle.wy_work.specs.declared.task.Task.TheVariants as tasks;

use crate::task::{ExprStep, Step, StmtStep, Task};
use std::alloc::AllocError;
use wy_kernel::form::{Expr, Stmt};
use wy_operands::Operands;
use wy_state::register::Register;
use wy_state::state::State;

/// What stands of a run, and what is left to do: the next last.
#[derive(Drop)]
pub struct Machine<'a, R> {
    pub state: State<'a, R>,
    /// How many bodies may still begin.
    pub depth: u32,
    pub work: Vec<Task<'a>>,
    pub stack: Operands,
    /// The values of the bodies that wait, those of the last of them last.
    pub saved: Vec<Operands>,
}

impl<'a, R: Register> Machine<'a, R> {
    pub fn push(&mut self, frame: Task<'a>) -> Result<(), AllocError>
        ensures { OnOk result (standing R.keeps R.kept self.new
            ≡ pushed frame.entry (standing R.keeps R.kept self.old)) }
    {
        self.work.push(frame)?;
        Ok(())
    }

    /// An expression goes on at a step.
    pub fn push_expr(&mut self, expr: &'a Expr, step: ExprStep) -> Result<(), AllocError>
        ensures { OnOk result (standing R.keeps R.kept self.new
            ≡ pushed (tasks.Expr expr.entry step) (standing R.keeps R.kept self.old)) }
    {
        self.push(Task::Expr { expr, step })
    }

    /// A statement goes on at a step.
    pub fn push_stmt(&mut self, stmt: &'a Stmt, step: StmtStep) -> Result<(), AllocError>
        ensures { OnOk result (standing R.keeps R.kept self.new
            ≡ pushed (tasks.Stmt stmt.entry step) (standing R.keeps R.kept self.old)) }
    {
        self.push(Task::Stmt { stmt, step })
    }

    pub fn push_step(&mut self, step: Step) -> Result<(), AllocError>
        ensures { OnOk result (standing R.keeps R.kept self.new
            ≡ pushed (tasks.Plain step) (standing R.keeps R.kept self.old)) }
    {
        self.push(Task::Plain { step })
    }
}
