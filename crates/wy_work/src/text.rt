//! Texts: string conversion, and `+` on texts (JLS 5.1.11, 15.18.1).

ghost use Rattle.std.specs.Prelude.{◌≡◌};
ghost use Rattle.wy_kernel.specs.Parts.{program_of};
ghost use Rattle.wy_meaning.specs.Text.{concatenated, shown};
ghost use Rattle.wy_operands.specs.Values.{at, top, under_many};
ghost use Rattle.wy_operation.specs.Words.{joined_texts};
ghost use Rattle.wy_work.specs.Expressions.{put_on, showing_right};
ghost use Rattle.wy_work.specs.Tasks.{Does};
ghost use Rattle.wy_work.specs.Machines.{standing};

use crate::machine::Machine;
use crate::task::Step;
use wy_calls::Dispatcher;
use wy_operation::texts::join_texts;
use wy_state::parts::Halt;
use wy_state::register::Register;
use wy_value::Value;

/// Object's `toString`.
const TO_STRING: u32 = 0;

impl<'a, R: Register> Machine<'a, R> {
    /// The text of the last two values: the left is converted, then the right.
    pub fn concatenate(&mut self, on: &Dispatcher<'a>, site: u32) -> Result<(), Halt>
        ensures goes { Does (program_of on.now.program.now)
            (λ w vs. put_on (under_many 2 vs) (concatenated w site (at 1 vs) (top vs)))
            (standing R.keeps R.kept self.old) result (standing R.keeps R.kept self.new) }
    {
        self.push_step(Step::ShowRight { site })?;
        self.show(on, 1, site)
    }

    /// The text of the left is there, and the right is converted.
    pub fn show_right(&mut self, on: &Dispatcher<'a>, site: u32) -> Result<(), Halt>
        ensures goes { Does (program_of on.now.program.now) (λ w. showing_right w site)
            (standing R.keeps R.kept self.old) result (standing R.keeps R.kept self.new) }
    {
        self.push_step(Step::Join { site })?;
        self.show(on, 1, site)
    }

    /// Puts what stands for a value on: an object stands for what its `toString` returns, each other value for itself.
    pub fn show(&mut self, on: &Dispatcher<'a>, above: usize, site: u32) -> Result<(), Halt>
        ensures goes { Does (program_of on.now.program.now)
            (λ w vs. put_on vs (shown w site (at above vs)))
            (standing R.keeps R.kept self.old) result (standing R.keeps R.kept self.new) }
    {
        self.stack.push_copy(above)?;
        match self.stack.top() {
            Value::Object(_) => self.call_chosen(on, TO_STRING, 0, site),
            _ => Ok(()),
        }
    }

    /// The texts of both are the last values, over the operands.
    pub fn join(&mut self, on: &Dispatcher<'a>, site: u32) -> Result<(), Halt>
        ensures goes { Does (program_of on.now.program.now)
            (λ w vs. put_on (under_many 4 vs) (joined_texts w site (at 1 vs) (top vs)))
            (standing R.keeps R.kept self.old) result (standing R.keeps R.kept self.new) }
    {
        let (left, right) = (self.stack.value_at(1), self.stack.top());
        let uses = self.stack.last_uses(2);
        let event = join_texts(&mut self.state, on.program, site, left, right, uses)?;
        self.stack.replace(4, Value::Text(event), event)?;
        Ok(())
    }
}
