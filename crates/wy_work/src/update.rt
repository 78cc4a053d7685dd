//! `op=`, `++` and `--`: the old value is fetched before the right side (JLS 15.26.2, 15.14.2, 15.15.1), and `+=` on texts.

ghost use Rattle.std.specs.Prelude.{◌≡◌};
ghost use Rattle.wy_kernel.specs.Parts.{program_of};
ghost use Rattle.wy_kernel.specs.Program as kernel;
ghost use Rattle.wy_kernel.specs.View.{expression, place};
ghost use Rattle.wy_kernel.specs.Form as form;
ghost use Rattle.wy_kernel.specs.declared.operator.BinOp.{BinOp as Op};
ghost use Rattle.wy_operands.specs.Values.{uses_of_last};
ghost use Rattle.wy_operands.specs.Values.{under_many};
ghost use Rattle.wy_operation.specs.Spots.{spot_of};
ghost use Rattle.wy_steps.specs.Sets.{nothing};
ghost use Rattle.wy_steps.specs.State.{Carried};
ghost use Rattle.wy_work.specs.Expressions.{expr_step, put_on, right_side, updating_of};
ghost use Rattle.wy_work.specs.Tasks.{Does};
ghost use Rattle.wy_work.specs.Listed.{IsUpdate};
ghost use Rattle.wy_work.specs.Machines.{standing};
ghost use Rattle.wy_work.specs.declared.task.ExprStep.TheVariants as step;

use crate::machine::Machine;
use crate::task::ExprStep;
use wy_calls::Dispatcher;
use wy_event::record::Slot;
use wy_kernel::form::{Expr, Place};
use wy_operation::place::{element_slot, fetch, field_slot};
use wy_operation::update::{Compound, update};
use wy_state::parts::Halt;
use wy_state::register::Register;
use wy_value::Value;

impl<'a, R: Register> Machine<'a, R> {
    /// Finds the place of an update.
    pub fn update(&mut self, on: &Dispatcher<'a>, expr: &'a Expr, at: &'a Place) -> Result<(), Halt>
        ensures goes { IsUpdate (expression expr.now) (place at.now)
            → Does (program_of on.now.program.now)
            (λ w. expr_step w (expression expr.now) step.Operate)
            (standing R.keeps R.kept self.old) result (standing R.keeps R.kept self.new) }
    {
        match at {
            Place::Local { index } => {
                let slot = self.state.local(*index);
                self.located(expr, slot, 0)
            }
            Place::Static { field, site } => {
                self.push_expr(expr, ExprStep::Ready)?;
                self.initialize_owner(on, *field, *site)
            }
            Place::Field { field, site, .. } => {
                let uses = self.stack.last_uses(1);
                let slot = field_slot(&mut self.state, *field, self.stack.top(), uses, *site)?;
                self.located(expr, slot, 1)
            }
            Place::Elem { site, .. } => {
                let (array, index) = (self.stack.value_at(1), self.stack.top());
                let uses = self.stack.last_uses(2);
                let slot = element_slot(&mut self.state, array, index, uses, *site)?;
                self.located(expr, slot, 2)
            }
        }
    }

    /// The place is found: its parts, which are the last values, come together; the old value is fetched; the right side is next.
    pub fn located(&mut self, expr: &'a Expr, slot: Slot, many: usize) -> Result<(), Halt>
        ensures goes { (p : kernel.Program) (c : Carried nothing)
            → c.uses ≡ uses_of_last many (standing R.keeps R.kept self.old).values
            → Does p
            (λ w vs. updating_of w (expression expr.now) (spot_of slot c) (under_many many vs))
            (standing R.keeps R.kept self.old) result (standing R.keeps R.kept self.new) }
    {
        let Expr::Upd { value, .. } = expr else {
            return Err(Halt::Memory);
        };
        self.stack.join(many, Value::None)?;
        let (old, used) = fetch(&self.state, slot)?;
        self.stack.push_after(old, used)?;
        self.push_expr(expr, ExprStep::Assign { slot })?;
        match value {
            Some(value) => self.push_expr(&**value, ExprStep::Find)?,
            None => self.stack.push(Value::Int(1))?,
        }
        Ok(())
    }

    /// The parts of the place, its old value and the right side are there.
    pub fn assign(&mut self, on: &Dispatcher<'a>, expr: &'a Expr, slot: Slot) -> Result<(), Halt>
        ensures goes { Does (program_of on.now.program.now)
            (λ w. expr_step w (expression expr.now) (step.Assign slot))
            (standing R.keeps R.kept self.old) result (standing R.keeps R.kept self.new) }
    {
        let Expr::Upd {
            op,
            ty,
            wide,
            gives_old,
            site,
            ..
        } = expr
        else {
            return Err(Halt::Memory);
        };
        let Some(wide) = wide else {
            self.push_expr(expr, ExprStep::Store { slot })?;
            return self.concatenate(on, *site);
        };
        let (old, right) = (self.stack.value_at(1), self.stack.top());
        let (operands, uses) = (self.stack.last_uses(2), self.stack.last_uses(3));
        let form = Compound {
            op: *op,
            wide: *wide,
            ty: *ty,
            site: *site,
        };
        let (value, event) = update(&mut self.state, slot, form, old, right, operands, uses)?;
        if *gives_old {
            self.stack.keep_second_of_three()?;
        } else {
            self.stack.replace(3, value, event)?;
        }
        Ok(())
    }

    /// The parts of the place and the text are there.
    pub fn store_text(
        &mut self,
        on: &Dispatcher<'a>,
        expr: &'a Expr,
        slot: Slot,
    ) -> Result<(), Halt>
        ensures goes { Does (program_of on.now.program.now)
            (λ w. expr_step w (expression expr.now) (step.Store slot))
            (standing R.keeps R.kept self.old) result (standing R.keeps R.kept self.new) }
    {
        let Expr::Upd { site, .. } = expr else {
            return Err(Halt::Memory);
        };
        self.store(on, slot, 2, *site)
    }
}
