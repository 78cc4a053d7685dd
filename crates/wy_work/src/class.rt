//! The initialization of classes (JLS 12.4.2).

ghost use Rattle.std.specs.Prelude.{ℕ, OnOk};
ghost use Rattle.wy_event.specs.declared.record.Kind.TheVariants as kind;
ghost use Rattle.wy_kernel.specs.Parts.{program_of};
ghost use Rattle.wy_kernel.specs.Program as kernel;
ghost use Rattle.wy_meaning.specs.Place.{initialize};
ghost use Rattle.wy_meaning.specs.World.{about};
ghost use Rattle.wy_operands.specs.Values.{Values};
ghost use Rattle.wy_steps.specs.Sets.{nothing};
ghost use Rattle.wy_steps.specs.State.{Run};
ghost use Rattle.wy_steps.specs.Steps.{constant, note_new};
ghost use Rattle.wy_value.specs.declared.value.Value.TheVariants as val;
ghost use Rattle.wy_work.specs.Calls.{IsSameStack, begun};
ghost use Rattle.wy_work.specs.Expressions.{leaving};
ghost use Rattle.wy_work.specs.Tasks.{Does, Turned, then_all};
ghost use Rattle.wy_work.specs.Machines.{standing};

use crate::machine::Machine;
use crate::task::{Step, StmtStep, Task};
use wy_calls::Dispatcher;
use wy_kernel::builtin::FIRST_SOURCE_CLASS;
use wy_kernel::types::NONE;
use wy_state::parts::{Halt, Limit};
use wy_state::register::Register;

impl<'a, R: Register> Machine<'a, R> {
    /// Initializes a source class, unless that is going on or done.
    pub fn initialize(&mut self, on: &Dispatcher<'a>, class: u32, site: u32) -> Result<(), Halt>
        ensures goes { Does (program_of on.now.program.now)
            (λ w vs. leaving vs (initialize w site class))
            (standing R.keeps R.kept self.old) result (standing R.keeps R.kept self.new) }
    {
        if class < FIRST_SOURCE_CLASS || self.state.is_begun(class) {
            return Ok(());
        }
        self.enter_class(on, class, site)
    }

    /// The superclass comes first, within it, and then the initializers in text order.
    fn enter_class(&mut self, on: &Dispatcher<'a>, class: u32, site: u32) -> Result<(), Halt>
        ensures goes { Does (program_of on.now.program.now)
            (λ w vs. leaving vs (w.enter site class))
            (standing R.keeps R.kept self.old) result (standing R.keeps R.kept self.new) }
    {
        if class as usize >= on.program.classes.len()
            || class as usize >= on.program.init_bodies.len()
        {
            return Err(Halt::Memory);
        }
        if self.depth == 0 {
            return Err(Halt::Stopped(Limit::Depth));
        }
        let event = self.begin_class(class, site)?;
        let body = on.program.init_body(class);
        let locals = match body {
            Some(body) => body.locals.len(),
            None => 0,
        };
        self.enter(event, locals, Step::LeaveClass)?;
        self.push_step(Step::Initialized)?;
        if let Some(body) = body {
            self.push_stmt(&body.block, StmtStep::Do)?;
        }
        let declared = on.program.class(class);
        if declared.above != NONE {
            self.push_step(Step::Initialize {
                class: declared.above,
                site: declared.site,
            })?;
        }
        Ok(())
    }

    /// Records the Init, which is active until the scope that is opened here is closed.
    fn begin_class(&mut self, class: u32, site: u32) -> Result<u32, Halt>
        ensures goes { (p : kernel.Program) (next : ℕ → Run nothing (Unit {0})) (under : Values)
            → Turned p (then_all p (standing R.keeps R.kept self.old)
            (leaving under (begun (note_new p (about kind.Init site class val.None)
            (constant val.None)) next)))
            (standing R.keeps R.kept self.old).state result (standing R.keeps R.kept self.new)
            (λ e. leaving under (next e)) }
        ensures same { OnOk result (IsSameStack (standing R.keeps R.kept self.old)
            (standing R.keeps R.kept self.new)) }
    {
        let scope = self.state.open_scope()?;
        self.push(Task::Close { scope })?;
        if self.state.is_begun(class) {
            return Err(Halt::Memory);
        }
        let event = self.state.note_init(site, class)?;
        self.state.activate(event)?;
        Ok(event)
    }
}
