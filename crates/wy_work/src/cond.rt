//! `?:`, `&&` and `||`: the Test is active in the whole expression (JLS 15.23 to 15.25).

ghost use Rattle.std.specs.Prelude.{◌≡◌, if◌then◌else◌};
ghost use Rattle.wy_kernel.specs.Program as kernel;
ghost use Rattle.wy_kernel.specs.View.{expression};
ghost use Rattle.wy_work.specs.Expressions.{expr_step};
ghost use Rattle.wy_work.specs.Tasks.{Does};
ghost use Rattle.wy_work.specs.Listed.{IsTestOf};
ghost use Rattle.wy_work.specs.Machines.{standing};
ghost use Rattle.wy_work.specs.declared.task.ExprStep.TheVariants as step;

use crate::machine::Machine;
use crate::task::{ExprStep, Task};
use wy_event::record::Use;
use wy_kernel::form::Expr;
use wy_operation::operand::is_true;
use wy_operation::test_event::test_around;
use wy_state::parts::Halt;
use wy_state::register::Register;
use wy_value::Value;

impl<'a, R: Register> Machine<'a, R> {
    /// What is active now is active again once the expression is done.
    pub fn conditional(&mut self, expr: &'a Expr, test: &'a Expr) -> Result<(), Halt>
        ensures goes { (p : kernel.Program) → IsTestOf (expression expr.now) (expression test.now)
            → Does p (λ w. expr_step w (expression expr.now) step.Operate)
            (standing R.keeps R.kept self.old) result (standing R.keeps R.kept self.new) }
    {
        let scope = self.state.open_scope()?;
        self.push(Task::Close { scope })?;
        self.push_expr(expr, ExprStep::Decide)?;
        self.push_expr(test, ExprStep::Find)?;
        Ok(())
    }

    /// Records the Test and begins the arm that it chooses; an empty one has the value of the condition.
    pub fn decide(&mut self, expr: &'a Expr) -> Result<(), Halt>
        ensures goes { (p : kernel.Program)
            → Does p (λ w. expr_step w (expression expr.now) step.Decide)
            (standing R.keeps R.kept self.old) result (standing R.keeps R.kept self.new) }
    {
        let Expr::Cond { yes, no, site, .. } = expr else {
            return Err(Halt::Memory);
        };
        let value = self.stack.top();
        let event = test_around(&mut self.state, *site, value, self.stack.last_uses(1))?;
        let Some(arm) = arm_of(is_true(value), yes, no) else {
            self.stack.replace(1, value, event)?;
            return Ok(());
        };
        self.stack.drop_last(1);
        self.stack.push_with(Value::None, Use::Choice { event })?;
        self.push_expr(expr, ExprStep::Chosen)?;
        self.push_expr(&**arm, ExprStep::Find)?;
        Ok(())
    }

    /// The value of the arm, as the Test chose it.
    pub fn chosen(&mut self, expr: &'a Expr) -> Result<(), Halt>
        ensures goes { (p : kernel.Program)
            → Does p (λ w. expr_step w (expression expr.now) step.Chosen)
            (standing R.keeps R.kept self.old) result (standing R.keeps R.kept self.new) }
    {
        let value = self.stack.top();
        self.stack.join(2, value)?;
        Ok(())
    }
}

/// The arm that a Test chooses.
fn arm_of<'a>(
    truth: bool,
    yes: &'a Option<Box<Expr>>,
    no: &'a Option<Box<Expr>>,
) -> &'a Option<Box<Expr>>
    ensures { result.now ≡ (if truth then yes.now else no.now) }
{
    if truth { yes } else { no }
}
