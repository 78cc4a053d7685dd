//! What goes on once a class is initialized: static fields, static calls and new objects.

ghost use Rattle.std.specs.Prelude.{◌≡◌, IfSome};
ghost use Rattle.wy_kernel.specs.View.{place};
ghost use Rattle.wy_work.specs.Listed.{IsStatic};
ghost use Rattle.wy_kernel.specs.Parts.{program_of};
ghost use Rattle.wy_kernel.specs.Program as kernel;
ghost use Rattle.wy_kernel.specs.View.{expression};
ghost use Rattle.wy_work.specs.Expressions.{expr_step};
ghost use Rattle.wy_work.specs.Tasks.{Does};
ghost use Rattle.wy_work.specs.Machines.{standing};
ghost use Rattle.wy_work.specs.declared.task.ExprStep.TheVariants as step;

use crate::machine::Machine;
use crate::task::ExprStep;
use wy_calls::Dispatcher;
use wy_event::record::Slot;
use wy_kernel::form::{CallForm, Expr, Place};
use wy_state::parts::Halt;
use wy_state::register::Register;

impl<'a, R: Register> Machine<'a, R> {
    /// The class that the expression needs is initialized.
    pub fn ready(&mut self, on: &Dispatcher<'a>, expr: &'a Expr) -> Result<(), Halt>
        ensures goes { Does (program_of on.now.program.now)
            (λ w. expr_step w (expression expr.now) step.Ready)
            (standing R.keeps R.kept self.old) result (standing R.keeps R.kept self.new) }
    {
        match expr {
            Expr::Read { place } => {
                let Some(slot) = static_slot(place) else {
                    return Err(Halt::Memory);
                };
                self.fetch(slot, 0)
            }
            Expr::Set { place, site, .. } => {
                let Some(slot) = static_slot(place) else {
                    return Err(Halt::Memory);
                };
                self.store(on, slot, 1, *site)
            }
            Expr::Upd { place, .. } => {
                let Some(slot) = static_slot(place) else {
                    return Err(Halt::Memory);
                };
                self.located(expr, slot, 0)
            }
            Expr::New { .. } => self.make_object(expr),
            Expr::Call {
                form,
                method,
                args,
                site,
                ..
            } => match form {
                CallForm::Static => self.call_static(on, *method, args.len(), *site),
                _ => Err(Halt::Memory),
            },
            _ => Err(Halt::Memory),
        }
    }
}

/// The slot of a place that is a static field.
fn static_slot(at: &Place) -> Option<Slot>
    ensures { IfSome result (λ x. IsStatic (place at.now) x) }
{
    match at {
        Place::Static { field, .. } => Some(Slot::Static { field: *field }),
        _ => None,
    }
}
