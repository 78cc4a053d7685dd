//! A turn of the machine: a task goes on where all before it went through, or is passed by.

ghost use Rattle.std.specs.Prelude.{◌≡◌, OnOk, IfErr};
ghost use Rattle.wy_kernel.specs.Parts.{program_of};
ghost use Rattle.wy_kernel.specs.Program as kernel;
ghost use Rattle.wy_kernel.specs.View.{expression};
ghost use Rattle.wy_state.specs.Seen.{reason_of, stop_of};
ghost use Rattle.wy_state.specs.declared.parts.Halt.TheVariants as halt;
ghost use Rattle.wy_steps.specs.State.{leave, return, stop};
ghost use Rattle.wy_steps.specs.Steps.{arrives, event_of, stop_cause};
ghost use Rattle.wy_work.specs.Calls.{Leaves};
ghost use Rattle.wy_work.specs.Expressions.{expr_step};
ghost use Rattle.wy_work.specs.Tasks.{Does, Ends, outcome_at};
ghost use Rattle.wy_work.specs.Machines.{standing};
ghost use Rattle.wy_work.specs.declared.task.Task.TheVariants as tasks;
ghost use Rattle.wy_work.specs.declared.task.Step.TheVariants as steps;

use crate::machine::Machine;
use crate::task::{ExprStep, Step, StmtStep, Task};
use wy_calls::{Dispatcher, Scope};
use wy_event::record::{GOING_ON, Use};
use wy_kernel::form::{Expr, Stmt};
use wy_operation::ending::end_body;
use wy_state::parts::{Halt, Limit, Reason};
use wy_state::register::Register;
use wy_value::Value;

/// How what was done so far ended.
#[derive(Clone, Copy)]
pub enum Signal {
    Going,
    Left(Reason),
    Stopped(Limit),
}

impl<'a, R: Register> Machine<'a, R> {
    /// A task at how what was before it ended.
    pub fn turn(&mut self, on: &Dispatcher<'a>, task: Task<'a>, signal: Signal) -> Result<(), Halt>
        ensures goes { Ends (program_of on.now.program.now) task.entry
            (outcome_at signal (standing R.keeps R.kept self.old).values)
            (standing R.keeps R.kept self.old) result (standing R.keeps R.kept self.new) }
    {
        match signal {
            Signal::Going => self.resume(on, task),
            Signal::Left(why) => self.pass(on, task, why),
            Signal::Stopped(why) => self.halt(task, why),
        }
    }

    /// A task where all before it went through.
    fn resume(&mut self, on: &Dispatcher<'a>, task: Task<'a>) -> Result<(), Halt>
        ensures goes { Ends (program_of on.now.program.now) task.entry
            (return (standing R.keeps R.kept self.old).values)
            (standing R.keeps R.kept self.old) result (standing R.keeps R.kept self.new) }
    {
        match task {
            Task::Expr { expr, step } => self.resume_expr(on, expr, step),
            Task::Row { exprs } => self.find_all(on, exprs),
            Task::Stmt { stmt, step } => self.resume_stmt(on, stmt, step),
            Task::Stmts { stmts } => self.begin_all(stmts),
            Task::Plain { step } => self.resume_step(on, step),
            Task::Close { scope } => {
                self.state.close_scope(scope)?;
                Ok(())
            }
        }
    }

    fn resume_expr(
        &mut self,
        on: &Dispatcher<'a>,
        expr: &'a Expr,
        step: ExprStep,
    ) -> Result<(), Halt>
        ensures goes { Does (program_of on.now.program.now)
            (λ w. expr_step w (expression expr.now) step)
            (standing R.keeps R.kept self.old) result (standing R.keeps R.kept self.new) }
    {
        match step {
            ExprStep::Find => self.find(on, expr),
            ExprStep::Operate => self.operate(on, expr),
            ExprStep::Ready => self.ready(on, expr),
            ExprStep::Assign { slot } => self.assign(on, expr, slot),
            ExprStep::Store { slot } => self.store_text(on, expr, slot),
            ExprStep::Decide => self.decide(expr),
            _ => self.resume_made(on, expr, step),
        }
    }

    fn resume_made(
        &mut self,
        on: &Dispatcher<'a>,
        expr: &'a Expr,
        step: ExprStep,
    ) -> Result<(), Halt>
        ensures goes { Does (program_of on.now.program.now)
            (λ w. expr_step w (expression expr.now) step)
            (standing R.keeps R.kept self.old) result (standing R.keeps R.kept self.new) }
    {
        match step {
            ExprStep::Chosen => self.chosen(expr),
            ExprStep::Construct => self.construct(on, expr),
            ExprStep::Elements { array, index } => self.find_element(expr, array, index),
            ExprStep::Element { array, index } => self.fill_element(expr, array, index),
            _ => Err(Halt::Memory),
        }
    }

    fn resume_stmt(
        &mut self,
        on: &Dispatcher<'a>,
        stmt: &'a Stmt,
        step: StmtStep,
    ) -> Result<(), Halt>
        ensures goes { Ends (program_of on.now.program.now) (tasks.Stmt stmt.entry step)
            (return (standing R.keeps R.kept self.old).values)
            (standing R.keeps R.kept self.old) result (standing R.keeps R.kept self.new) }
    {
        match step {
            StmtStep::Do => self.begin(stmt),
            StmtStep::Operate => self.act_on(on, stmt),
            StmtStep::Print => self.print(on, stmt),
            StmtStep::Loop => self.begin_turns(stmt),
            StmtStep::Turn { turns } => self.turn_loop(stmt, turns),
            StmtStep::Decide { turns } => self.decide_turn(stmt, turns),
            StmtStep::Catch => {
                self.stack.clear();
                Ok(())
            }
            StmtStep::Finally => self.finish_last(stmt),
        }
    }

    fn resume_step(&mut self, on: &Dispatcher<'a>, step: Step) -> Result<(), Halt>
        ensures goes { Ends (program_of on.now.program.now) (tasks.Plain step)
            (return (standing R.keeps R.kept self.old).values)
            (standing R.keeps R.kept self.old) result (standing R.keeps R.kept self.new) }
    {
        match step {
            Step::ShowRight { site } => self.show_right(on, site),
            Step::Join { site } => self.join(on, site),
            Step::Initialize { class, site } => self.initialize(on, class, site),
            Step::Main => self.call_main(on),
            Step::BodyEnd { returns_none, site } => self.end_body(returns_none, site),
            Step::Again { why } => Err(Halt::Left(why)),
            Step::End { statement } => self.end(statement),
            _ => self.resume_end(step),
        }
    }

    fn resume_end(&mut self, step: Step) -> Result<(), Halt>
        ensures goes { (p : kernel.Program) → Ends p (tasks.Plain step)
            (return (standing R.keeps R.kept self.old).values)
            (standing R.keeps R.kept self.old) result (standing R.keeps R.kept self.new) }
    {
        match step {
            Step::Initialized => {
                self.stack.clear();
                Ok(())
            }
            Step::LeaveCall { count } => self.leave_call(count),
            Step::LeaveClass => self.leave_body(),
            Step::Forget => {
                self.stack.drop_last(1);
                Ok(())
            }
            _ => Err(Halt::Memory),
        }
    }

    /// The Return at the end of a body whose block ended normally.
    fn end_body(&mut self, returns_none: bool, site: u32) -> Result<(), Halt>
        ensures goes { (p : kernel.Program)
            → Ends p (tasks.Plain (steps.BodyEnd returns_none site))
            (return (standing R.keeps R.kept self.old).values)
            (standing R.keeps R.kept self.old) result (standing R.keeps R.kept self.new) }
    {
        self.stack.clear();
        let event = end_body(&mut self.state, returns_none, site)?;
        self.stack.push_with(Value::None, Use::Value { event })?;
        Ok(())
    }

    /// The value of a body that ends goes to the body that called it, in place of so many operands.
    fn leave_call(&mut self, count: usize) -> Result<(), Halt>
        ensures goes { (p : kernel.Program) → Ends p (tasks.Plain (steps.LeaveCall count))
            (return (standing R.keeps R.kept self.old).values)
            (standing R.keeps R.kept self.old) result (standing R.keeps R.kept self.new) }
    {
        let value = self.stack.top();
        let [used] = self.stack.last_uses(1) else {
            return Err(Halt::Memory);
        };
        let used = *used;
        self.leave_body()?;
        self.stack.drop_last(count);
        self.stack.push_with(value, used)?;
        Ok(())
    }

    /// The frame ends, and the values of the body that waited are there again.
    fn leave_body(&mut self) -> Result<(), Halt>
        ensures goes { (p : kernel.Program) → OnOk result (Leaves p
            (standing R.keeps R.kept self.old) (standing R.keeps R.kept self.new)) }
        ensures refused { IfErr result (λ e. e ≡ halt.Memory) }
    {
        let Some(waiting) = self.saved.pop() else {
            return Err(Halt::Memory);
        };
        if self.depth == u32::MAX {
            return Err(Halt::Memory);
        }
        self.stack = waiting;
        self.depth += 1;
        self.state.leave();
        Ok(())
    }

    /// The normal end of a statement.
    fn end(&mut self, statement: u32) -> Result<(), Halt>
        ensures goes { (p : kernel.Program) → Ends p (tasks.Plain (steps.End statement))
            (return (standing R.keeps R.kept self.old).values)
            (standing R.keeps R.kept self.old) result (standing R.keeps R.kept self.new) }
    {
        self.state.finish(statement)?;
        self.stack.clear();
        Ok(())
    }

    /// A task that stands above where what was left goes on.
    fn pass(&mut self, on: &Dispatcher<'a>, task: Task<'a>, why: Reason) -> Result<(), Halt>
        ensures goes { Ends (program_of on.now.program.now) task.entry (leave (reason_of why))
            (standing R.keeps R.kept self.old) result (standing R.keeps R.kept self.new) }
    {
        match task {
            Task::Stmt { stmt, step } => self.pass_stmt(on, stmt, step, why),
            Task::Plain { step } => self.pass_step(step, why),
            Task::Close { scope } => {
                self.state.close_scope(scope)?;
                Err(Halt::Left(why))
            }
            _ => Err(Halt::Left(why)),
        }
    }

    fn pass_stmt(
        &mut self,
        on: &Dispatcher<'a>,
        stmt: &'a Stmt,
        step: StmtStep,
        why: Reason,
    ) -> Result<(), Halt>
        ensures goes { Ends (program_of on.now.program.now) (tasks.Stmt stmt.entry step)
            (leave (reason_of why))
            (standing R.keeps R.kept self.old) result (standing R.keeps R.kept self.new) }
    {
        match step {
            StmtStep::Catch => self.handle(on, stmt, why),
            StmtStep::Finally => self.handle_last(stmt, why),
            _ => Err(Halt::Left(why)),
        }
    }

    fn pass_step(&mut self, step: Step, why: Reason) -> Result<(), Halt>
        ensures goes { (p : kernel.Program) → Ends p (tasks.Plain step) (leave (reason_of why))
            (standing R.keeps R.kept self.old) result (standing R.keeps R.kept self.new) }
    {
        match step {
            Step::BodyEnd { returns_none, site } => self.pass_body(returns_none, site, why),
            Step::Initialized => self.pass_failure(why),
            Step::LeaveCall { .. } => {
                self.leave_body()?;
                Err(Halt::Left(why))
            }
            Step::LeaveClass => {
                self.leave_body()?;
                Err(Halt::Left(why))
            }
            Step::End { statement } => self.end_left(statement, why),
            _ => Err(Halt::Left(why)),
        }
    }

    /// A Return ends its body, which has its value.
    fn pass_body(&mut self, returns_none: bool, site: u32, why: Reason) -> Result<(), Halt>
        ensures goes { (p : kernel.Program)
            → Ends p (tasks.Plain (steps.BodyEnd returns_none site))
            (leave (reason_of why))
            (standing R.keeps R.kept self.old) result (standing R.keeps R.kept self.new) }
    {
        let Reason::Returned { event, value } = why else {
            return Err(Halt::Left(why));
        };
        self.stack.clear();
        self.stack.push_with(value, Use::Value { event })?;
        Ok(())
    }

    /// An initializer that ends by a throw stops the run.
    fn pass_failure(&mut self, why: Reason) -> Result<(), Halt>
        ensures goes { (p : kernel.Program) → Ends p (tasks.Plain steps.Initialized)
            (leave (reason_of why))
            (standing R.keeps R.kept self.old) result (standing R.keeps R.kept self.new) }
    {
        match why {
            Reason::Threw { event, value: _ } => {
                Err(Halt::Stopped(Limit::InitFailed { last: event }))
            }
            _ => Err(Halt::Left(why)),
        }
    }

    /// The end of a statement that is left, or at which a jump arrives.
    fn end_left(&mut self, statement: u32, why: Reason) -> Result<(), Halt>
        ensures goes { (p : kernel.Program) → Ends p (tasks.Plain (steps.End statement))
            (leave (reason_of why))
            (standing R.keeps R.kept self.old) result (standing R.keeps R.kept self.new) }
    {
        if arrives(statement, why) {
            return self.end(statement);
        }
        self.state.leave_by(statement, event_of(why))?;
        Err(Halt::Left(why))
    }

    /// A task that a stop finds.
    fn halt(&mut self, task: Task<'a>, why: Limit) -> Result<(), Halt>
        ensures goes { (p : kernel.Program) → Ends p task.entry (stop (stop_of why))
            (standing R.keeps R.kept self.old) result (standing R.keeps R.kept self.new) }
    {
        match task {
            Task::Plain { step } => self.halt_step(step, why),
            Task::Close { scope } => {
                self.state.close_scope(scope)?;
                Err(Halt::Stopped(why))
            }
            _ => Err(Halt::Stopped(why)),
        }
    }

    fn halt_step(&mut self, step: Step, why: Limit) -> Result<(), Halt>
        ensures goes { (p : kernel.Program) → Ends p (tasks.Plain step) (stop (stop_of why))
            (standing R.keeps R.kept self.old) result (standing R.keeps R.kept self.new) }
    {
        match step {
            Step::LeaveCall { .. } => {
                self.leave_body()?;
                Err(Halt::Stopped(why))
            }
            Step::LeaveClass => {
                self.leave_body()?;
                Err(Halt::Stopped(why))
            }
            Step::End { statement } => {
                self.state.leave_by(statement, cause_of(why))?;
                Err(Halt::Stopped(why))
            }
            _ => Err(Halt::Stopped(why)),
        }
    }
}

/// A jump arrives at its target.
#[tactic(auto, unfolding(wy_steps::specs::Steps::arrives))]
fn arrives(statement: u32, why: Reason) -> bool
    ensures { result ≡ arrives statement (reason_of why) }
{
    match why {
        Reason::Jumped { target, event: _ } => statement == target,
        _ => false,
    }
}

#[tactic(auto, unfolding(wy_steps::specs::Steps::event_of))]
fn event_of(why: Reason) -> u32
    ensures { result ≡ event_of (reason_of why) }
{
    match why {
        Reason::Jumped { target: _, event } => event,
        Reason::Returned { event, value: _ } => event,
        Reason::Threw { event, value: _ } => event,
    }
}

/// A statement that a failed initialization found going on is left by its Throw.
#[tactic(auto, unfolding(wy_steps::specs::Steps::stop_cause))]
fn cause_of(why: Limit) -> u32
    ensures { result ≡ stop_cause (stop_of why) }
{
    match why {
        Limit::InitFailed { last } => last,
        _ => GOING_ON,
    }
}
