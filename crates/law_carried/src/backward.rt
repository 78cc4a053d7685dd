//! Backward equals forward: what is looked up in the records of a run is what the values of the run carried.

ghost use Rattle.std.specs.Prelude.{List, ℕ};
ghost use Rattle.wy_kernel.specs.Program.{Program};
ghost use Rattle.law_carried.specs.Backward.{BackwardIsForward, StoredIsLastWrite, UsesDetermineSets};
ghost use Rattle.law_carried.specs.Closing.{ClosuresAreOfSources, DataClosuresAreOfSources};
ghost use Rattle.law_carried.specs.Agreement.{ArgumentsLead, EndsAgree, EqualUsesEqualSets, ExpressionsLead, InitializationsLead, PlacesLead, StartsAgree, StatementsLead, ValuesAreByUses};

/// In every run the closure of an event over the records is what its values carried: by data, and in all. What the
/// store held for a slot at a moment is what the last write below that moment came from.
pub fn backward_is_forward()
    ensures events { (p : Program) (input : List ℕ) (budget : ℕ)
        → BackwardIsForward p input budget }
    ensures stored { (p : Program) (input : List ℕ) (budget : ℕ)
        → StoredIsLastWrite p input budget }
{}

/// The states of a run agree with its records: the first does, so does the last, and every expression, place, list of
/// arguments, statement and initialization of a class leads from a state that does to one that does.
pub fn states_agree_with_records()
    ensures starts { (p : Program) → StartsAgree p }
    ensures expressions { (p : Program) → ExpressionsLead p }
    ensures places { (p : Program) → PlacesLead p }
    ensures arguments { (p : Program) → ArgumentsLead p }
    ensures statements { (p : Program) → StatementsLead p }
    ensures initializations { (p : Program) → InitializationsLead p }
    ensures ends { (p : Program) → EndsAgree p }
{}

/// What was carried to an event is determined by its uses, its control parent and the records; what a value that
/// arises in a run carries, by its uses and the records. So two such values with equal uses carry equal sets.
pub fn uses_determine_sets()
    ensures events { (p : Program) (input : List ℕ) (budget : ℕ)
        → UsesDetermineSets p input budget }
    ensures values { (p : Program) → ValuesAreByUses p }
    ensures equal_uses { (p : Program) → EqualUsesEqualSets p }
{}

/// In every list of records the closure of an event whose uses and control parent are past is the event with the closures of its
/// sources: in all, and by data.
pub fn closures_are_of_sources()
    ensures all { ClosuresAreOfSources }
    ensures data { DataClosuresAreOfSources }
{}
