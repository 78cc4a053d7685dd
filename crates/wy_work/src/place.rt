//! Places: where a value is read and where it is assigned, once their parts are there (JLS 15.10.4, 15.11, 15.13, 15.26).

ghost use Rattle.std.specs.Prelude.{◌≡◌};
ghost use Rattle.wy_kernel.specs.Parts.{program_of};
ghost use Rattle.wy_kernel.specs.Program as kernel;
ghost use Rattle.wy_kernel.specs.View.{expression, place};
ghost use Rattle.wy_kernel.specs.Form as form;
ghost use Rattle.wy_meaning.specs.Place.{fetch, initialize, store};
ghost use Rattle.wy_operands.specs.Values.{top, under_many, uses_of_last};
ghost use Rattle.wy_operation.specs.Spots.{Stored, spot_of};
ghost use Rattle.wy_steps.specs.Sets.{nothing};
ghost use Rattle.wy_steps.specs.State.{Carried};
ghost use Rattle.wy_work.specs.Expressions.{expr_step, leaving, put_on};
ghost use Rattle.wy_work.specs.Tasks.{Does};
ghost use Rattle.wy_work.specs.Machines.{standing};
ghost use Rattle.wy_work.specs.declared.task.ExprStep.TheVariants as step;

use crate::machine::Machine;
use crate::task::ExprStep;
use wy_calls::Dispatcher;
use wy_event::record::Slot;
use wy_kernel::form::{Expr, Place};
use wy_operation::place::{element_slot, fetch, field_slot, store};
use wy_state::parts::Halt;
use wy_state::register::Register;

impl<'a, R: Register> Machine<'a, R> {
    /// Reads the place of an expression.
    pub fn read(&mut self, on: &Dispatcher<'a>, expr: &'a Expr, at: &'a Place) -> Result<(), Halt>
        ensures goes { expression expr.now ≡ form.Read (place at.now)
            → Does (program_of on.now.program.now)
            (λ w. expr_step w (expression expr.now) step.Operate)
            (standing R.keeps R.kept self.old) result (standing R.keeps R.kept self.new) }
    {
        match at {
            Place::Local { index } => {
                let slot = self.state.local(*index);
                self.fetch(slot, 0)
            }
            Place::Static { field, site } => {
                self.push_expr(expr, ExprStep::Ready)?;
                self.initialize_owner(on, *field, *site)
            }
            Place::Field { field, site, .. } => {
                let uses = self.stack.last_uses(1);
                let slot = field_slot(&mut self.state, *field, self.stack.top(), uses, *site)?;
                self.fetch(slot, 1)
            }
            Place::Elem { site, .. } => {
                let (array, index) = (self.stack.value_at(1), self.stack.top());
                let uses = self.stack.last_uses(2);
                let slot = element_slot(&mut self.state, array, index, uses, *site)?;
                self.fetch(slot, 2)
            }
        }
    }

    /// Reads a slot whose place's parts are the last values.
    pub fn fetch(&mut self, slot: Slot, many: usize) -> Result<(), Halt>
        ensures goes { (p : kernel.Program) (c : Carried nothing)
            → c.uses ≡ uses_of_last many (standing R.keeps R.kept self.old).values
            → Does p (λ w vs. put_on (under_many many vs) (fetch (spot_of slot c)))
            (standing R.keeps R.kept self.old) result (standing R.keeps R.kept self.new) }
    {
        let (value, used) = fetch(&self.state, slot)?;
        self.stack.join_with(many, value, used)?;
        Ok(())
    }

    /// Assigns the right side, which is the last of so many values; those under it are the parts of the place.
    pub fn store(
        &mut self,
        on: &Dispatcher<'a>,
        slot: Slot,
        many: usize,
        site: u32,
    ) -> Result<(), Halt>
        ensures goes { (o : Stored slot (top (standing R.keeps R.kept self.old).values).value
            (uses_of_last many (standing R.keeps R.kept self.old).values))
            → Does (program_of on.now.program.now)
            (λ w vs. put_on (under_many many vs) (store w site o.spot o.right))
            (standing R.keeps R.kept self.old) result (standing R.keeps R.kept self.new) }
    {
        let value = self.stack.top();
        let uses = self.stack.last_uses(many);
        let event = store(&mut self.state, on.program, slot, value, uses, site)?;
        self.stack.replace(many, value, event)?;
        Ok(())
    }

    /// Assigns to the place of an expression.
    pub fn set(
        &mut self,
        on: &Dispatcher<'a>,
        expr: &'a Expr,
        at: &'a Place,
        site: u32,
    ) -> Result<(), Halt>
        ensures goes { (value : form.Expression) → expression expr.now
            ≡ form.Set (place at.now) value site
            → Does (program_of on.now.program.now)
            (λ w. expr_step w (expression expr.now) step.Operate)
            (standing R.keeps R.kept self.old) result (standing R.keeps R.kept self.new) }
    {
        match at {
            Place::Local { index } => {
                let slot = self.state.local(*index);
                self.store(on, slot, 1, site)
            }
            Place::Static { field, site: at } => {
                self.push_expr(expr, ExprStep::Ready)?;
                self.initialize_owner(on, *field, *at)
            }
            Place::Field {
                field,
                site: at,
                ..
            } => {
                let object = self.stack.value_at(1);
                let uses = self.stack.uses_at(1);
                let slot = field_slot(&mut self.state, *field, object, uses, *at)?;
                self.store(on, slot, 2, site)
            }
            Place::Elem { site: at, .. } => {
                let (array, index) = (self.stack.value_at(2), self.stack.value_at(1));
                let uses = self.stack.uses_under_top();
                let slot = element_slot(&mut self.state, array, index, uses, *at)?;
                self.store(on, slot, 3, site)
            }
        }
    }

    /// The class that declares a static field is initialized.
    pub fn initialize_owner(
        &mut self,
        on: &Dispatcher<'a>,
        field: u32,
        site: u32,
    ) -> Result<(), Halt>
        ensures goes { Does (program_of on.now.program.now)
            (λ w vs. leaving vs (initialize w site (kernel.field w.program field).class))
            (standing R.keeps R.kept self.old) result (standing R.keeps R.kept self.new) }
    {
        if field as usize >= on.program.fields.len() {
            return Err(Halt::Memory);
        }
        let class = on.program.field(field).class;
        self.initialize(on, class, site)
    }
}
