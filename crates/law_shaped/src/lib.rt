//! The records of a run refer to earlier records, each of the kind that its place asks for.
#![tactic(auto)]

ghost use Rattle.std.specs.Prelude.{List, ℕ};
ghost use Rattle.wy_kernel.specs.Program.{Program};
ghost use Rattle.wy_steps.specs.Sets.{nothing, numbers};
ghost use Rattle.law_shaped.specs.Shaped.{CountsAreShaped, RecordsAreShaped, CoverageIsShaped, LastIsShaped};

/// Every reference in the records of a run is below its own number and to a record of a kind that may stand there, and
/// every moment is at most that number. A record has what its kind has. At the end, what left a statement is a Jump, a
/// Return or a Throw, no statement ended more often than it began, and what ended the run is a Throw. The tail's counts
/// are those of the records and of the output, and are within their limits.
pub fn references_point_below()
    ensures records { (p : Program) (input : List ℕ) (budget : ℕ)
        → RecordsAreShaped nothing p input budget }
    ensures records_carrying { (p : Program) (input : List ℕ) (budget : ℕ)
        → RecordsAreShaped numbers p input budget }
    ensures coverage { (p : Program) (input : List ℕ) (budget : ℕ)
        → CoverageIsShaped nothing p input budget }
    ensures counts { (p : Program) (input : List ℕ) (budget : ℕ)
        → CountsAreShaped nothing p input budget }
    ensures last { (p : Program) (input : List ℕ) (budget : ℕ)
        → LastIsShaped nothing p input budget }
{}
