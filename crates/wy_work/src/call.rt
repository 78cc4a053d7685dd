//! Calls: the receiver and the arguments are there; null, the choice of the method, the frame (JLS 15.12.4).

ghost use Rattle.std.specs.Prelude.{◌≡◌, ◌<◌, ◌==◌, ℕ, suc, OnOk, Option, Some};
ghost use Rattle.std.specs.Prelude.{None as Absent};
ghost use Rattle.wy_calls.specs.Calls.{first_of};
ghost use Rattle.wy_event.specs.declared.record.Kind.TheVariants as kind;
ghost use Rattle.wy_kernel.specs.Parts.{program_of};
ghost use Rattle.wy_kernel.specs.Program as kernel;
ghost use Rattle.wy_kernel.specs.View.{body_of, expression};
ghost use Rattle.wy_kernel.specs.declared.form.CallForm.TheVariants as form;
ghost use Rattle.wy_meaning.specs.Call.{bind_all, bound, call_on, call_on_text, call_uses, equals, is_void};
ghost use Rattle.wy_meaning.specs.Text.{call_chosen};
ghost use Rattle.wy_meaning.specs.World.{about};
ghost use Rattle.wy_operands.specs.Layout.{values_of};
ghost use Rattle.wy_operands.specs.Values.{Values, at, last_many, under_many};
ghost use Rattle.wy_steps.specs.Sets.{nothing};
ghost use Rattle.wy_steps.specs.State.{Carried, Run, return};
ghost use Rattle.wy_steps.specs.Steps.{note};
ghost use Rattle.wy_value.specs.declared.value.Value.TheVariants as val;
ghost use Rattle.wy_work.specs.Calls.{Enters, IsSameStack, begun, used_by};
ghost use Rattle.wy_work.specs.Expressions.{expr_step, put_on};
ghost use Rattle.wy_work.specs.Tasks.{Does, Turned, followed, main_called, then_all};
ghost use Rattle.wy_work.specs.Machines.{standing};
ghost use Rattle.wy_work.specs.Operands.{Given, evaluated};
ghost use Rattle.wy_work.specs.declared.task.ExprStep.TheVariants as step;

use crate::machine::Machine;
use crate::parts::parts;
use crate::task::{ExprStep, Step, StmtStep, Task};
use std::alloc::AllocError;
use std::mem;
use wy_calls::Dispatcher;
use wy_event::record::{Kind, Slot, Use};
use wy_kernel::code::class_of_type;
use wy_kernel::form::{Body, CallForm, Expr};
use wy_kernel::types::{Base, MethodForm, NONE, Ty};
use wy_operands::Operands;
use wy_operation::array::make_array;
use wy_operation::binding::bind_all;
use wy_operation::exception::{NULL_POINTER, fail};
use wy_operation::operand::{Part, is_null};
use wy_operation::texts::text_equals;
use wy_state::parts::{Draft, Halt, Limit};
use wy_state::register::Register;
use wy_value::Value;

/// On a text at run time `equals` and `toString` are operations of the library.
const EQUALS: u32 = 1;

/// The type of what main is called with.
const STRINGS: Ty = Ty::Of {
    base: Base::Class(1),
    brackets: 1,
};

impl<'a, R: Register> Machine<'a, R> {
    /// A call whose receiver, if it has one, and arguments are there.
    pub fn call_form(&mut self, on: &Dispatcher<'a>, expr: &'a Expr) -> Result<(), Halt>
        ensures goes { Does (program_of on.now.program.now)
            (λ w. expr_step w (expression expr.now) step.Operate)
            (standing R.keeps R.kept self.old) result (standing R.keeps R.kept self.new) }
    {
        let Expr::Call {
            form,
            method,
            receiver,
            args,
            site,
            ..
        } = expr
        else {
            return Err(Halt::Memory);
        };
        match (form, receiver) {
            (CallForm::Static, _) => {
                if *method as usize >= on.program.methods.len() {
                    return Err(Halt::Memory);
                }
                self.push_expr(expr, ExprStep::Ready)?;
                self.initialize(on, on.program.method(*method).class, *site)
            }
            (_, None) => Err(Halt::Memory),
            (CallForm::Direct, Some(_)) => self.call_direct(on, *method, args.len(), *site),
            (CallForm::Chosen, Some(_)) => self.call_by_class(on, *method, args.len(), *site),
        }
    }

    /// A call of a method that is known, on a receiver that may be null.
    fn call_direct(
        &mut self,
        on: &Dispatcher<'a>,
        method: u32,
        count: usize,
        site: u32,
    ) -> Result<(), Halt>
        ensures goes { Does (program_of on.now.program.now)
            (λ w vs. put_on (under_many (suc count) vs)
            (call_on w form.Direct method (return (at count vs))
            (evaluated (last_many count vs)) site))
            (standing R.keeps R.kept self.old) result (standing R.keeps R.kept self.new) }
    {
        if is_null(self.stack.value_at(count)) {
            return Err(fail(
                &mut self.state,
                NULL_POINTER,
                site,
                self.stack.uses_at(count),
            ));
        }
        self.call_on(on, method, count, site)
    }

    /// A call of the method that the class of the receiver gives.
    fn call_by_class(
        &mut self,
        on: &Dispatcher<'a>,
        method: u32,
        count: usize,
        site: u32,
    ) -> Result<(), Halt>
        ensures goes { Does (program_of on.now.program.now)
            (λ w vs. put_on (under_many (suc count) vs)
            (call_on w form.Chosen method (return (at count vs))
            (evaluated (last_many count vs)) site))
            (standing R.keeps R.kept self.old) result (standing R.keeps R.kept self.new) }
    {
        match self.stack.value_at(count) {
            Value::Null => {
                Err(fail(
                    &mut self.state,
                    NULL_POINTER,
                    site,
                    self.stack.uses_at(count),
                ))
            }
            Value::Text(_) | Value::Fixed(_) => self.call_on_text(on, method, count),
            _ => self.call_chosen(on, method, count, site),
        }
    }

    /// `equals` of a text has the uses of the receiver and of its argument; `toString` is the
    /// receiver.
    fn call_on_text(&mut self, on: &Dispatcher<'a>, method: u32, count: usize) -> Result<(), Halt>
        ensures goes { Does (program_of on.now.program.now)
            (λ w vs. put_on (under_many (suc count) vs)
            (call_on_text w (method == equals) (at count vs) (last_many count vs)))
            (standing R.keeps R.kept self.old) result (standing R.keeps R.kept self.new) }
    {
        match (method, count) {
            (EQUALS, 1) => {
                let left = Part {
                    value: self.stack.value_at(1),
                    uses: self.stack.uses_at(1),
                };
                let right = Part {
                    value: self.stack.top(),
                    uses: self.stack.uses_at(0),
                };
                let same = text_equals(&self.state, on.program, left, right)?;
                self.stack.join(2, Value::Bool(same))?;
                Ok(())
            }
            (EQUALS, _) => Err(Halt::Memory),
            (_, count) => {
                self.stack.drop_last(count);
                let value = self.stack.top();
                self.stack.join(1, value)?;
                Ok(())
            }
        }
    }

    /// A call that the class of the receiver decides, where it is no text.
    pub fn call_chosen(
        &mut self,
        on: &Dispatcher<'a>,
        method: u32,
        count: usize,
        site: u32,
    ) -> Result<(), Halt>
        ensures goes { Does (program_of on.now.program.now)
            (λ w vs. put_on (under_many (suc count) vs)
            (call_chosen w site method (at count vs) (last_many count vs)))
            (standing R.keeps R.kept self.old) result (standing R.keeps R.kept self.new) }
    {
        let class = class_of_type(self.state.type_of(self.stack.value_at(count))?);
        if method as usize >= on.program.methods.len() {
            return Err(Halt::Memory);
        }
        let chosen = on.dispatch(class, method);
        self.call_on(on, chosen, count, site)
    }

    /// A call on a receiver, which lies under so many arguments.
    pub fn call_on(
        &mut self,
        on: &Dispatcher<'a>,
        method: u32,
        count: usize,
        site: u32,
    ) -> Result<(), Halt>
        ensures goes { Does (program_of on.now.program.now)
            (λ w vs. put_on (under_many (suc count) vs)
            (w.call site method (Some (at count vs)) (last_many count vs)))
            (standing R.keeps R.kept self.old) result (standing R.keeps R.kept self.new) }
    {
        if method as usize >= on.program.methods.len() || count == usize::MAX {
            return Err(Halt::Memory);
        }
        match on.program.method(method).form {
            MethodForm::Constructor => self.call(on, method, count + 1, None, site),
            _ => self.call(on, method, count + 1, Some(count), site),
        }
    }

    /// A call without a receiver.
    pub fn call_static(
        &mut self,
        on: &Dispatcher<'a>,
        method: u32,
        count: usize,
        site: u32,
    ) -> Result<(), Halt>
        ensures goes { Does (program_of on.now.program.now)
            (λ w vs. put_on (under_many count vs)
            (w.call site method Absent (last_many count vs)))
            (standing R.keeps R.kept self.old) result (standing R.keeps R.kept self.new) }
    {
        self.call(on, method, count, None, site)
    }

    /// A call of a method that is known: its record, its frame, a Bind for each of the last values,
    /// its block, its end. The Call uses what the value with so many above it does.
    fn call(
        &mut self,
        on: &Dispatcher<'a>,
        method: u32,
        count: usize,
        receiver: Option<usize>,
        site: u32,
    ) -> Result<(), Halt>
        ensures goes { (r : Option (Carried nothing)) (args : Values)
            → bound r args ≡ last_many count (standing R.keeps R.kept self.old).values
            → (call_uses (kernel.method (program_of on.now.program.now) method).form r).uses
            ≡ used_by receiver (standing R.keeps R.kept self.old).values
            → Does (program_of on.now.program.now)
            (λ w vs. put_on (under_many count vs) (w.call site method r args))
            (standing R.keeps R.kept self.old) result (standing R.keeps R.kept self.new) }
    {
        if method as usize >= on.program.methods.len()
            || method as usize >= on.program.bodies.len()
        {
            return Err(Halt::Memory);
        }
        if self.depth == 0 {
            return Err(Halt::Stopped(Limit::Depth));
        }
        let Some(body) = on.program.body(method) else {
            return Err(Halt::Stopped(Limit::FellOff));
        };
        let event = self.begin_call(method, receiver, site)?;
        self.enter(event, body.locals.len(), Step::LeaveCall { count })?;
        self.push_step(Step::BodyEnd {
            returns_none: is_void(on.program.method(method).result),
            site: body.end,
        })?;
        self.push_stmt(&body.block, StmtStep::Do)?;
        self.bind(body, event, count)
    }

    /// Records the Call, which is active until the scope that is opened here is closed.
    fn begin_call(&mut self, method: u32, receiver: Option<usize>, site: u32) -> Result<u32, Halt>
        ensures goes { (p : kernel.Program) (c : Carried nothing)
            (next : ℕ → Given) (under : Values)
            → c.uses ≡ used_by receiver (standing R.keeps R.kept self.old).values
            → Turned p (then_all p (standing R.keeps R.kept self.old)
            (put_on under (begun (note (about kind.Call site method val.None) c) next)))
            (standing R.keeps R.kept self.old).state result (standing R.keeps R.kept self.new)
            (λ e. put_on under (next e)) }
        ensures same { OnOk result (IsSameStack (standing R.keeps R.kept self.old)
            (standing R.keeps R.kept self.new)) }
    {
        if method == NONE {
            return Err(Halt::Memory);
        }
        let scope = self.state.open_scope()?;
        self.push(Task::Close { scope })?;
        let uses = used_by(&self.stack, receiver);
        let draft = Draft {
            kind: Kind::Call,
            site,
            entity: method,
            slot: Slot::None,
            value: Value::None,
        };
        let event = self.state.note(draft, uses)?;
        self.state.activate(event)?;
        Ok(event)
    }

    /// A frame begins for an event, with a stack of its own.
    pub fn enter(&mut self, event: u32, locals: usize, leave: Step) -> Result<(), AllocError>
        requires { 0 < self.old.depth }
        ensures goes { (p : kernel.Program) → OnOk result (Enters p event leave
            (standing R.keeps R.kept self.old) (standing R.keeps R.kept self.new)) }
    {
        self.state.enter(event, locals)?;
        let waiting = mem::replace(&mut self.stack, Operands::new(self.state.alloc));
        self.saved.push(waiting)?;
        self.depth -= 1;
        self.push_step(leave)?;
        Ok(())
    }

    /// A Bind for each of the last values of the body that waits.
    fn bind(&mut self, body: &'a Body, event: u32, count: usize) -> Result<(), Halt>
        ensures goes { (p : kernel.Program) (next : Run nothing Values)
            → Turned p (then_all p (standing R.keeps R.kept self.old)
            (followed (bind_all (body_of body.now) event 0
            (last_many count (first_of (standing R.keeps R.kept self.old).saved))) (λ u. next)))
            (standing R.keeps R.kept self.old).state result (standing R.keeps R.kept self.new)
            (λ u. next) }
        ensures same { OnOk result (IsSameStack (standing R.keeps R.kept self.old)
            (standing R.keeps R.kept self.new)) }
    {
        let Some(waiting) = self.saved.last() else {
            return Err(Halt::Memory);
        };
        let values = parts(self.state.alloc, waiting, count)?;
        bind_all(&mut self.state, body, event, values.as_slice())
    }

    /// An array of length 0 is made, and main is called with it.
    pub fn call_main(&mut self, on: &Dispatcher<'a>) -> Result<(), Halt>
        ensures goes { Does (program_of on.now.program.now) (λ w vs. put_on vs (main_called w))
            (standing R.keeps R.kept self.old) result (standing R.keeps R.kept self.new) }
    {
        let main = on.program.main;
        if main as usize >= on.program.methods.len() {
            return Err(Halt::Memory);
        }
        let site = on.program.method(main).site;
        let array = make_array(&mut self.state, site, STRINGS, 0, &[])?;
        self.stack
            .push_with(Value::Object(array), Use::Value { event: array })?;
        self.call_static(on, main, 1, site)
    }
}

#[tactic(auto, unfolding(wy_meaning::specs::Call::is_void))]
fn is_void(ty: Ty) -> bool
    ensures { result ≡ is_void ty }
{
    match ty {
        Ty::Void => true,
        _ => false,
    }
}

/// The uses of the value with so many above it, or none.
fn used_by(stack: &Operands, receiver: Option<usize>) -> &[Use]
    ensures { result.now ≡ used_by receiver (values_of stack.now) }
{
    match receiver {
        Some(above) => stack.uses_at(above),
        None => &[],
    }
}
