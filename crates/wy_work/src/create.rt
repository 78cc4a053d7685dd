//! Creation of objects (JLS 12.5, 15.9.4), and of arrays (JLS 10.6, 15.10).

ghost use Rattle.std.specs.Prelude.{◌≡◌, ◌∷◌, [], true};
ghost use Rattle.wy_event.specs.declared.record.Use.TheVariants as uses;
ghost use Rattle.wy_meaning.specs.Array.{create_array};
ghost use Rattle.wy_operands.specs.Values.{last_many, under_many};
ghost use Rattle.wy_work.specs.Operands.{evaluated};
ghost use Rattle.wy_work.specs.Expressions.{put_on};
ghost use Rattle.wy_kernel.specs.Parts.{program_of};
ghost use Rattle.wy_kernel.specs.Program as kernel;
ghost use Rattle.wy_kernel.specs.View.{expression};
ghost use Rattle.wy_work.specs.Expressions.{expr_step};
ghost use Rattle.wy_work.specs.Tasks.{Does};
ghost use Rattle.wy_work.specs.Machines.{standing};
ghost use Rattle.wy_work.specs.declared.task.ExprStep.TheVariants as step;
ghost use Rattle.wy_work.specs.Listed.{IsNew};

use crate::machine::Machine;
use crate::parts::parts;
use crate::task::{ExprStep, Step, Task};
use wy_calls::Dispatcher;
use wy_event::record::Use;
use wy_kernel::form::Expr;
use wy_kernel::types::{NONE, Ty};
use wy_operation::array::{create_array, make_array, set_element};
use wy_state::parts::Halt;
use wy_state::register::Register;
use wy_value::Value;

impl<'a, R: Register> Machine<'a, R> {
    /// The class is initialized before the object is made.
    pub fn create(
        &mut self,
        on: &Dispatcher<'a>,
        expr: &'a Expr,
        class: u32,
        site: u32,
    ) -> Result<(), Halt>
        ensures goes { IsNew (expression expr.now) class site
            → Does (program_of on.now.program.now)
            (λ w. expr_step w (expression expr.now) step.Operate)
            (standing R.keeps R.kept self.old) result (standing R.keeps R.kept self.new) }
    {
        self.push_expr(expr, ExprStep::Ready)?;
        self.initialize(on, class, site)
    }

    /// The object is made, and the arguments are evaluated. The object stands twice on the stack: as what the form gives, and as
    /// the receiver of the constructor.
    pub fn make_object(&mut self, expr: &'a Expr) -> Result<(), Halt>
        ensures goes { (p : kernel.Program)
            → Does p (λ w. expr_step w (expression expr.now) step.Ready)
            (standing R.keeps R.kept self.old) result (standing R.keeps R.kept self.new) }
    {
        let Expr::New {
            class,
            args,
            site,
            ..
        } = expr
        else {
            return Err(Halt::Memory);
        };
        let event = self.state.note_object(*site, *class, &[])?;
        self.stack
            .push_with(Value::Object(event), Use::Value { event })?;
        self.stack
            .push_with(Value::Object(event), Use::Value { event })?;
        self.push_expr(expr, ExprStep::Construct)?;
        self.push(Task::Row {
            exprs: args.as_slice(),
        })?;
        Ok(())
    }

    /// The constructor is called, where there is one.
    pub fn construct(&mut self, on: &Dispatcher<'a>, expr: &'a Expr) -> Result<(), Halt>
        ensures goes { Does (program_of on.now.program.now)
            (λ w. expr_step w (expression expr.now) step.Construct)
            (standing R.keeps R.kept self.old) result (standing R.keeps R.kept self.new) }
    {
        let Expr::New {
            constructor,
            args,
            site,
            ..
        } = expr
        else {
            return Err(Halt::Memory);
        };
        if *constructor == NONE {
            self.stack.drop_last(args.len() + 1);
            return Ok(());
        }
        self.push_step(Step::Forget)?;
        self.call_on(on, *constructor, args.len(), *site)
    }

    /// An array with its subarrays by the dimensions that are there, or one with elements that are to be evaluated.
    pub fn new_array(&mut self, expr: &'a Expr) -> Result<(), Halt>
        ensures goes { (p : kernel.Program)
            → Does p (λ w. expr_step w (expression expr.now) step.Operate)
            (standing R.keeps R.kept self.old) result (standing R.keeps R.kept self.new) }
    {
        let Expr::NewArray {
            ty,
            dims,
            elements,
            site,
            ..
        } = expr
        else {
            return Err(Halt::Memory);
        };
        if dims.is_empty() {
            let Ok(length) = u32::try_from(elements.len()) else {
                return Err(Halt::Memory);
            };
            let array = make_array(&mut self.state, *site, *ty, length, &[])?;
            self.stack
                .push_with(Value::Object(array), Use::Value { event: array })?;
            self.push_expr(expr, ExprStep::Elements { array, index: 0 })?;
            return Ok(());
        }
        self.create_arrays(*ty, dims.len(), *site)
    }

    fn create_arrays(&mut self, ty: Ty, count: usize, site: u32) -> Result<(), Halt>
        ensures goes { (p : kernel.Program)
            → Does p (λ w vs. put_on (under_many count vs)
            (create_array w ty (evaluated (last_many count vs)) site))
            (standing R.keeps R.kept self.old) result (standing R.keeps R.kept self.new) }
    {
        let dims = parts(self.state.alloc, &self.stack, count)?;
        let all = self.stack.last_uses(count);
        let array = create_array(&mut self.state, ty, dims.as_slice(), all, site)?;
        drop(dims);
        self.stack.replace(count, Value::Object(array), array)?;
        Ok(())
    }

    /// The elements of an array initializer from an index on.
    pub fn find_element(&mut self, expr: &'a Expr, array: u32, index: u32) -> Result<(), Halt>
        ensures goes { (p : kernel.Program)
            → Does p (λ w. expr_step w (expression expr.now) (step.Elements array index))
            (standing R.keeps R.kept self.old) result (standing R.keeps R.kept self.new) }
    {
        let Expr::NewArray { elements, .. } = expr else {
            return Err(Halt::Memory);
        };
        match elements.get(index as usize) {
            None => Ok(()),
            Some(element) => {
                self.push_expr(expr, ExprStep::Element { array, index })?;
                self.push_expr(element, ExprStep::Find)?;
                Ok(())
            }
        }
    }

    /// The value of an element is there, over the array.
    pub fn fill_element(&mut self, expr: &'a Expr, array: u32, index: u32) -> Result<(), Halt>
        ensures goes { (p : kernel.Program)
            → Does p (λ w. expr_step w (expression expr.now) (step.Element array index))
            (standing R.keeps R.kept self.old) result (standing R.keeps R.kept self.new) }
    {
        let Expr::NewArray { element_sites, .. } = expr else {
            return Err(Halt::Memory);
        };
        if !is_value_of(self.stack.uses_at(1), array) || index == u32::MAX {
            return Err(Halt::Memory);
        }
        let site = element_sites.get(index as usize).copied().unwrap_or(0);
        let value = self.stack.top();
        let uses = self.stack.last_uses(2);
        set_element(&mut self.state, array, index, value, uses, site)?;
        self.stack.drop_last(1);
        self.push_expr(
            expr,
            ExprStep::Elements {
                array,
                index: index + 1,
            },
        )?;
        Ok(())
    }
}

/// Whether these are the uses of the value of an event.
fn is_value_of(used: &[Use], number: u32) -> bool
    ensures { result ≡ true → used.now ≡ uses.Value number ∷ [] }
{
    match used {
        [Use::Value { event }] => *event == number,
        _ => false,
    }
}
