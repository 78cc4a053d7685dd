//! Expressions begin here: each takes a step, and its operands come before the rest of it (JLS 15).

ghost use Rattle.std.specs.Prelude.{◌≡◌, OnOk, IfSome};
ghost use Rattle.wy_kernel.specs.Parts.{program_of};
ghost use Rattle.wy_kernel.specs.Program.{Program};
ghost use Rattle.wy_kernel.specs.View.{constant_of, expression};
ghost use Rattle.wy_meaning.specs.Expression.{constant_value, eval};
ghost use Rattle.wy_steps.specs.State.{return};
ghost use Rattle.wy_steps.specs.Steps.{constant};
ghost use Rattle.wy_work.specs.Expressions.{expr_step, put_all, put_on};
ghost use Rattle.wy_work.specs.Tasks.{Does, pushed_all};
ghost use Rattle.wy_work.specs.Listed.{finding, listed, rows};
ghost use Rattle.wy_work.specs.Machines.{standing};
ghost use Rattle.wy_work.specs.declared.task.ExprStep.TheVariants as step;

use crate::machine::Machine;
use crate::operand::{Listed, operands};
use crate::task::{ExprStep, Task};
use std::alloc::AllocError;
use wy_calls::Dispatcher;
use wy_kernel::form::{Const, Expr};
use wy_state::parts::Halt;
use wy_state::register::Register;
use wy_value::Value;

impl<'a, R: Register> Machine<'a, R> {
    /// Begins an expression, which takes a step.
    pub fn find(&mut self, on: &Dispatcher<'a>, expr: &'a Expr) -> Result<(), Halt>
        ensures goes { Does (program_of on.now.program.now)
            (λ w vs. put_on vs (eval w (expression expr.now)))
            (standing R.keeps R.kept self.old) result (standing R.keeps R.kept self.new) }
    {
        self.state.tick()?;
        let Some(listed) = operands(expr) else {
            return Err(Halt::Memory);
        };
        match listed {
            Listed::None => self.operate(on, expr),
            _ => {
                self.push_expr(expr, ExprStep::Operate)?;
                self.push_operands(listed)?;
                Ok(())
            }
        }
    }

    /// The operands come first, in order.
    fn push_operands(&mut self, listed: Listed<'a>) -> Result<(), AllocError>
        ensures { OnOk result (standing R.keeps R.kept self.new
            ≡ pushed_all (finding listed.entry) (standing R.keeps R.kept self.old)) }
    {
        match listed {
            Listed::None => Ok(()),
            Listed::One(first) => self.push_expr(first, ExprStep::Find),
            Listed::Two(first, second) => {
                self.push_expr(second, ExprStep::Find)?;
                self.push_expr(first, ExprStep::Find)
            }
            Listed::Three(first, second, third) => {
                self.push_expr(third, ExprStep::Find)?;
                self.push_expr(second, ExprStep::Find)?;
                self.push_expr(first, ExprStep::Find)
            }
            Listed::Row(exprs) => self.push(Task::Row { exprs }),
            Listed::Headed(first, exprs) => {
                self.push(Task::Row { exprs })?;
                self.push_expr(first, ExprStep::Find)
            }
        }
    }

    /// Begins the first of expressions, before the others.
    pub fn find_all(&mut self, on: &Dispatcher<'a>, exprs: &'a [Expr]) -> Result<(), Halt>
        ensures goes { Does (program_of on.now.program.now) (λ w. put_all w (rows exprs.now))
            (standing R.keeps R.kept self.old) result (standing R.keeps R.kept self.new) }
    {
        match exprs.split_first() {
            None => Ok(()),
            Some((first, rest)) => {
                self.push(Task::Row { exprs: rest })?;
                self.find(on, first)
            }
        }
    }

    pub fn constant(&mut self, value: &'a Const) -> Result<(), Halt>
        ensures goes { (p : Program) → Does p
            (λ w vs. put_on vs (return (constant (constant_value (constant_of value.now)))))
            (standing R.keeps R.kept self.old) result (standing R.keeps R.kept self.new) }
    {
        let Some(value) = value_of(value) else {
            return Err(Halt::Memory);
        };
        self.stack.push(value)?;
        Ok(())
    }
}

/// The value of a constant that stands in a form.
#[tactic(auto, unfolding(wy_meaning::specs::Expression::constant_value))]
fn value_of(constant: &Const) -> Option<Value>
    ensures { IfSome result (λ v. v ≡ constant_value (constant_of constant.now)) }
{
    match constant {
        Const::Null => Some(Value::Null),
        Const::Bool(truth) => Some(Value::Bool(*truth)),
        Const::Byte(number) => Some(Value::Byte(*number)),
        Const::Short(number) => Some(Value::Short(*number)),
        Const::Char(number) => Some(Value::Char(*number)),
        Const::Int(number) => Some(Value::Int(*number)),
        Const::Long(number) => Some(Value::Long(*number)),
        Const::Text(_) => None,
    }
}
