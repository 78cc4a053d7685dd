//! The active entries of a run: each is active from its event to the end of its reach, not longer.

ghost use Rattle.wy_kernel.specs.Program.{Program};
ghost use Rattle.wy_steps.specs.Sets.{nothing, numbers};
ghost use Rattle.law_counted.specs.Entries.{ArmsAreControlledByTheirTest, CatchesBecomeActive, ControlIsOfTheBody, EntriesEndWithTheirReach, ExpressionsAddNoEntry, NothingIsActiveAtTheEnd, StatementsKeepEntries, TestsBecomeActive, TheParentIsTheGreatest};

/// In every run, what controls an event of a body is the Call or Init of that body, or an event
/// of that body: no entry is active in another body than its own and those called from it. When
/// a run has ended, nothing is active.
pub fn control_is_of_the_body()
    ensures control { (p : Program) → ControlIsOfTheBody nothing p }
    ensures control_carrying { (p : Program) → ControlIsOfTheBody numbers p }
    ensures ended { (p : Program) → NothingIsActiveAtTheEnd nothing p }
    ensures ended_carrying { (p : Program) → NothingIsActiveAtTheEnd numbers p }
{}

/// The Test of a statement is active from its event on, and so is the Catch of a clause. It
/// stays active after each expression, and after each statement that is not, and has not in it,
/// the one that it reaches through, and what is recorded meanwhile is controlled by it or a
/// later event; after that statement it is not active. The Test of `?:`, `&&` or `||` controls
/// what its arm records. A statement adds no entry but events since its start, each with the
/// reach that the statement or one within it has. The entries stay in order, the newest first;
/// so the control parent of an event is the greatest event that is active.
pub fn entries_are_active_to_the_end_of_their_reach()
    ensures tests { (p : Program) → TestsBecomeActive nothing p }
    ensures tests_carrying { (p : Program) → TestsBecomeActive numbers p }
    ensures catches { CatchesBecomeActive nothing }
    ensures catches_carrying { CatchesBecomeActive numbers }
    ensures arms { (p : Program) → ArmsAreControlledByTheirTest nothing p }
    ensures arms_carrying { (p : Program) → ArmsAreControlledByTheirTest numbers p }
    ensures expressions { (p : Program) → ExpressionsAddNoEntry nothing p }
    ensures expressions_carrying { (p : Program) → ExpressionsAddNoEntry numbers p }
    ensures statements { (p : Program) → StatementsKeepEntries nothing p }
    ensures statements_carrying { (p : Program) → StatementsKeepEntries numbers p }
    ensures reach { (p : Program) → EntriesEndWithTheirReach nothing p }
    ensures reach_carrying { (p : Program) → EntriesEndWithTheirReach numbers p }
    ensures greatest { TheParentIsTheGreatest nothing }
    ensures greatest_carrying { TheParentIsTheGreatest numbers }
{}
