//! What an expression does once its operands are there, by its form.

ghost use Rattle.std.specs.Prelude.{◌≡◌};
ghost use Rattle.wy_kernel.specs.Parts.{program_of};
ghost use Rattle.wy_kernel.specs.Program as kernel;
ghost use Rattle.wy_kernel.specs.View.{expression};
ghost use Rattle.wy_meaning.specs.Expression.{binary, cast, convert, instance_of, unary};
ghost use Rattle.wy_meaning.specs.Library.{library};
ghost use Rattle.wy_operands.specs.Values.{at, last_many, top, under, under_many};
ghost use Rattle.wy_steps.specs.State.{return};
ghost use Rattle.wy_steps.specs.Steps.{constant};
ghost use Rattle.wy_value.specs.declared.value.Value.TheVariants as val;
ghost use Rattle.wy_work.specs.Expressions.{expr_step, put_on};
ghost use Rattle.wy_work.specs.Tasks.{Does};
ghost use Rattle.wy_work.specs.Machines.{standing};
ghost use Rattle.wy_work.specs.declared.task.ExprStep.TheVariants as step;

use crate::machine::Machine;
use crate::parts::parts;
use wy_calls::Dispatcher;
use wy_kernel::form::{Expr, LibOp};
use wy_kernel::operator::{BinOp, Primitive, UnOp};
use wy_kernel::types::Ty;
use wy_operation::operator::{binary, convert_to, unary_of};
use wy_operation::texts::{Found, library};
use wy_operation::types::{cast, instance_of};
use wy_state::parts::Halt;
use wy_state::register::Register;
use wy_value::Value;

impl<'a, R: Register> Machine<'a, R> {
    /// The operands of an expression are there.
    pub fn operate(&mut self, on: &Dispatcher<'a>, expr: &'a Expr) -> Result<(), Halt>
        ensures goes { Does (program_of on.now.program.now)
            (λ w. expr_step w (expression expr.now) step.Operate)
            (standing R.keeps R.kept self.old) result (standing R.keeps R.kept self.new) }
    {
        match expr {
            Expr::Const { value } => self.constant(value),
            Expr::Str { text } => self.text(*text),
            Expr::Read { place } => self.read(on, expr, place),
            Expr::Set { place, site, .. } => self.set(on, expr, place, *site),
            Expr::Upd { place, .. } => self.update(on, expr, place),
            Expr::Cond { test, .. } => self.conditional(expr, &**test),
            Expr::New { class, site, .. } => self.create(on, expr, *class, *site),
            _ => self.operate_on(on, expr),
        }
    }

    fn operate_on(&mut self, on: &Dispatcher<'a>, expr: &'a Expr) -> Result<(), Halt>
        ensures goes { Does (program_of on.now.program.now)
            (λ w. expr_step w (expression expr.now) step.Operate)
            (standing R.keeps R.kept self.old) result (standing R.keeps R.kept self.new) }
    {
        match expr {
            Expr::Un { op, .. } => self.unary(*op),
            Expr::Bin { op, site, .. } => self.binary(*op, *site),
            Expr::Conv { to, .. } => self.convert(*to),
            Expr::Cast { ty, site, .. } => self.cast(on, *ty, *site),
            Expr::InstanceOf { ty, .. } => self.instance_of(on, *ty),
            Expr::NewArray { .. } => self.new_array(expr),
            Expr::Call { .. } => self.call_form(on, expr),
            _ => self.operate_texts(on, expr),
        }
    }

    fn operate_texts(&mut self, on: &Dispatcher<'a>, expr: &'a Expr) -> Result<(), Halt>
        ensures goes { Does (program_of on.now.program.now)
            (λ w. expr_step w (expression expr.now) step.Operate)
            (standing R.keeps R.kept self.old) result (standing R.keeps R.kept self.new) }
    {
        match expr {
            Expr::Cat { site, .. } => self.concatenate(on, *site),
            Expr::Lib { op, args, site } => self.library(on, *op, args.len(), *site),
            _ => Err(Halt::Memory),
        }
    }

    fn text(&mut self, text: u32) -> Result<(), Halt>
        ensures goes { (p : kernel.Program) → Does p
            (λ w vs. put_on vs (return (constant (val.Fixed text))))
            (standing R.keeps R.kept self.old) result (standing R.keeps R.kept self.new) }
    {
        self.stack.push(Value::Fixed(text))?;
        Ok(())
    }

    fn unary(&mut self, op: UnOp) -> Result<(), Halt>
        ensures goes { (p : kernel.Program) → Does p
            (λ w vs. put_on (under vs) (unary op (return (top vs))))
            (standing R.keeps R.kept self.old) result (standing R.keeps R.kept self.new) }
    {
        let Some(value) = unary_of(op, self.stack.top()) else {
            return Err(Halt::Memory);
        };
        self.stack.join(1, value)?;
        Ok(())
    }

    fn binary(&mut self, op: BinOp, site: u32) -> Result<(), Halt>
        ensures goes { (p : kernel.Program) → Does p
            (λ w vs. put_on (under_many 2 vs)
            (binary w op (return (at 1 vs)) (return (top vs)) site))
            (standing R.keeps R.kept self.old) result (standing R.keeps R.kept self.new) }
    {
        let left = self.stack.value_at(1);
        let right = self.stack.top();
        let value = binary(
            &mut self.state,
            op,
            left,
            right,
            self.stack.last_uses(2),
            site,
        )?;
        self.stack.join(2, value)?;
        Ok(())
    }

    fn convert(&mut self, to: Primitive) -> Result<(), Halt>
        ensures goes { (p : kernel.Program) → Does p
            (λ w vs. put_on (under vs) (convert to (return (top vs))))
            (standing R.keeps R.kept self.old) result (standing R.keeps R.kept self.new) }
    {
        let Some(value) = convert_to(to, self.stack.top()) else {
            return Err(Halt::Memory);
        };
        self.stack.join(1, value)?;
        Ok(())
    }

    fn cast(&mut self, on: &Dispatcher<'a>, ty: Ty, site: u32) -> Result<(), Halt>
        ensures goes { Does (program_of on.now.program.now)
            (λ w vs. put_on (under vs) (cast w ty (return (top vs)) site))
            (standing R.keeps R.kept self.old) result (standing R.keeps R.kept self.new) }
    {
        let value = self.stack.top();
        cast(
            &mut self.state,
            on.program,
            ty,
            value,
            self.stack.last_uses(1),
            site,
        )?;
        self.stack.join(1, value)?;
        Ok(())
    }

    fn instance_of(&mut self, on: &Dispatcher<'a>, ty: Ty) -> Result<(), Halt>
        ensures goes { Does (program_of on.now.program.now)
            (λ w vs. put_on (under vs) (instance_of w ty (return (top vs))))
            (standing R.keeps R.kept self.old) result (standing R.keeps R.kept self.new) }
    {
        let is_one = instance_of(&self.state, on.program, ty, self.stack.top())?;
        self.stack.join(1, Value::Bool(is_one))?;
        Ok(())
    }

    fn library(
        &mut self,
        on: &Dispatcher<'a>,
        op: LibOp,
        count: usize,
        site: u32,
    ) -> Result<(), Halt>
        ensures goes { Does (program_of on.now.program.now)
            (λ w vs. put_on (under_many count vs) (library w op site (last_many count vs)))
            (standing R.keeps R.kept self.old) result (standing R.keeps R.kept self.new) }
    {
        let row = parts(self.state.alloc, &self.stack, count)?;
        let all = self.stack.last_uses(count);
        let found = library(&mut self.state, on.program, op, row.as_slice(), all, site)?;
        drop(row);
        match found {
            Found::Same(value) => self.stack.join(count, value)?,
            Found::Made(value, event) => self.stack.replace(count, value, event)?,
        }
        Ok(())
    }
}
