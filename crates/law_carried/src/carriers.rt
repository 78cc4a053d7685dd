//! One meaning, whatever is carried: what values carry of where they come from changes nothing else in a run.

ghost use Rattle.std.specs.Prelude.{◌≡◌, List, ℕ};
ghost use Rattle.wy_kernel.specs.Program.{Program};
ghost use Rattle.wy_meaning.specs.Run.{events, output, tail};
ghost use Rattle.wy_steps.specs.Sets.{nothing, numbers};

/// A run that carries sets records the events, writes the output, covers the statements and ends as the run that
/// carries nothing.
pub fn carrying_changes_nothing()
    ensures events { (p : Program) (input : List ℕ) (budget : ℕ)
        → events numbers p input budget ≡ events nothing p input budget }
    ensures output { (p : Program) (input : List ℕ) (budget : ℕ)
        → output numbers p input budget ≡ output nothing p input budget }
    ensures tail { (p : Program) (input : List ℕ) (budget : ℕ)
        → tail numbers p input budget ≡ tail nothing p input budget }
{}
