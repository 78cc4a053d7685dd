//! What a heap takes from a program is what the program says. The functions do nothing: their contracts are laws.

ghost use Rattle.std.specs.Prelude.{◌≡◌, ℕ};
ghost use Rattle.wy_heap.specs.Plan.{field_at, first_of, plan_of};
ghost use Rattle.wy_kernel.specs.Program.{Program, field};
ghost use Rattle.wy_steps.specs.Steps.{default_value, owner_in};

/// The first value of a field is the default of its type, and its class is the one that declares it.
pub fn fields_are_planned()
    ensures first { (p : Program) (f : ℕ) → first_of (plan_of p) f ≡ default_value (field p f).ty }
    ensures owner { (p : Program) (f : ℕ) → (field_at (plan_of p).fields f).class ≡ owner_in p f }
{}
