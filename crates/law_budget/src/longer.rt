//! Two budgets: the run with the smaller one is a prefix of the run with the larger one.

ghost use Rattle.std.specs.Prelude.{List, ℕ, ◌≤◌};
ghost use Rattle.wy_kernel.specs.Program.{Program};
ghost use Rattle.wy_steps.specs.Sets.{nothing, numbers};
ghost use Rattle.law_budget.specs.Longer.{IsPrefixOfLarger, IsSameWithLarger};

/// The events and the output of a run are a prefix of those of a run with a larger budget, with all that its values
/// carry. A run that the step limit does not stop is the same with each larger budget, to its end.
pub fn a_smaller_budget_gives_a_prefix()
    ensures carrying { (p : Program) (input : List ℕ) (budget larger : ℕ) → budget ≤ larger
        → IsPrefixOfLarger numbers p input budget larger }
    ensures plain { (p : Program) (input : List ℕ) (budget larger : ℕ) → budget ≤ larger
        → IsPrefixOfLarger nothing p input budget larger }
    ensures same_carrying { (p : Program) (input : List ℕ) (budget larger : ℕ) → budget ≤ larger
        → IsSameWithLarger numbers p input budget larger }
    ensures same_plain { (p : Program) (input : List ℕ) (budget larger : ℕ) → budget ≤ larger
        → IsSameWithLarger nothing p input budget larger }
{}
