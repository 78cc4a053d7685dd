//! What stands above a class: a search that looks at each class once (JLS 4.10.2).

ghost use Rattle.std.specs.Prelude.{◌≡◌, ◌≢◌, IfOk, OnOk, [], ◌∷◌};
ghost use Rattle.wy_kernel.specs.Parts.{program_of};
ghost use Rattle.wy_kernel.specs.Program.{is_subclass, object_class};
ghost use Rattle.wy_kernel.specs.View.{class_of};
ghost use Rattle.wy_state.specs.Above.{HasVisited, right_above};

use std::alloc::{AllocError, Global};
use wy_kernel::program::Program;
use wy_kernel::types::{Class, NONE};

/// A search for a class: whether it was met, which classes were found, and those of them above which nothing was looked at yet.
#[derive(Drop)]
struct Climb {
    goal: u32,
    met: bool,
    found: Vec<bool>,
    waiting: Vec<u32>,
}

impl Climb {
    /// Meets a class.
    fn visit(&mut self, class: u32) -> Result<(), AllocError>
        ensures visited { OnOk result (HasVisited (class ∷ []) self.old self.new) }
    {
        self.met |= class == self.goal;
        let place = class as usize;
        if place < self.found.len() && !self.found[place] {
            self.found[place] = true;
            self.waiting.push(class)?;
        }
        Ok(())
    }

    fn visit_all(&mut self, classes: &[u32]) -> Result<(), AllocError>
        ensures visited { OnOk result (HasVisited classes.now self.old self.new) }
    {
        for class in classes {
            self.visit(*class)?;
        }
        Ok(())
    }

    /// Meets what a class extends and implements.
    fn visit_above(&mut self, row: &Class) -> Result<(), AllocError>
        ensures visited { OnOk result (HasVisited (right_above (class_of row.now)) self.old self.new) }
    {
        if row.above == NONE {
            return self.visit_all(row.interfaces.as_slice());
        }
        self.visit(row.above)?;
        self.visit_all(row.interfaces.as_slice())
    }
}

/// Whether a class is another than Object, or that one stands above it.
pub(crate) fn stands_above(
    alloc: Global,
    program: &Program,
    class: u32,
    goal: u32,
) -> Result<bool, AllocError>
    requires { goal ≢ object_class }
    ensures { IfOk result (λ b. b ≡ is_subclass (program_of program.now) class goal) }
{
    let mut climb = Climb {
        goal,
        met: false,
        found: vec![in alloc; false; program.classes.len()]?,
        waiting: Vec::new(alloc),
    };
    climb.visit(class)?;
    while let Some(found) = climb.waiting.pop() {
        if climb.met {
            return Ok(true);
        }
        climb.visit_above(program.class(found))?;
    }
    Ok(climb.met)
}
