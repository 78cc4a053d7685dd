//! The budget of a run: it is never passed, and the step limit stops a run only when it is taken.

ghost use Rattle.wy_kernel.specs.Program.{Program};
ghost use Rattle.wy_steps.specs.Sets.{nothing, numbers};
ghost use Rattle.law_budget.specs.Budget.{AddsUp, TakesAllAtTheLimit};

/// A run that the step limit stops has taken as many steps as its budget has. The steps that a run
/// took and those that are left at its end add up to its budget, however it ends.
pub fn the_step_limit_is_the_budget()
    ensures carrying { (p : Program) → TakesAllAtTheLimit numbers p }
    ensures plain { (p : Program) → TakesAllAtTheLimit nothing p }
    ensures sum_carrying { (p : Program) → AddsUp numbers p }
    ensures sum_plain { (p : Program) → AddsUp nothing p }
{}
