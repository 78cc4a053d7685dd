//! What a run executed is reached by what it crossed, and none of the items of why-not can be left out.
#![tactic(auto)]

ghost use Rattle.wy_kernel.specs.Program.{Program};
ghost use Rattle.wy_steps.specs.Sets.{nothing, numbers};
ghost use Rattle.law_structure.specs.Numbers.{AreDense};
ghost use Rattle.law_structure.specs.Sites.{TestsStandApart};
ghost use Rattle.law_sites.specs.Choices.{ChoicesStandApart};
ghost use Rattle.law_reached.specs.Laws.{CallsStandOnLinks, EachItemIsNeeded, ExecutedPointsAreReached, OfPrograms, StandsApart};

/// In every run of a program that fits its types, keeps the library and has its points apart, each point at which a link of the
/// program begins or ends, and which the run executed, is Start, or is reached from it by links of the program that the run crossed,
/// one after another.
///
/// A statement is executed if it began, an entry, an initialization and a catch if its event is there, and an arm if its test gave its
/// value. A call is crossed if it was made at its site, in the body of its owner; every other link if both its ends are executed.
pub fn executed_points_are_reached()
    ensures reached { OfPrograms (ExecutedPointsAreReached nothing) }
    ensures reached_carrying { OfPrograms (ExecutedPointsAreReached numbers) }
{}

/// In every run of such a program, for each item of a statement that never began, there is a chain to the statement that has the
/// item's link and no link of any other item: so no item can be left out.
pub fn each_item_is_needed()
    ensures needed { OfPrograms (EachItemIsNeeded nothing) }
    ensures needed_carrying { OfPrograms (EachItemIsNeeded numbers) }
{}

/// In every run of such a program each event of kind Call or Init stands at the site of a link of the program to what it begins, in
/// the body of the link's owner, which is executed. So the method that ran is among the possible targets of its call.
pub fn calls_stand_on_links()
    ensures calls { OfPrograms (CallsStandOnLinks nothing) }
    ensures calls_carrying { OfPrograms (CallsStandOnLinks numbers) }
{}

/// Where each number is that of one statement, and the choices of a program have sites of their own, which no test of a statement has,
/// each statement and each arm stands in one body, and no link begins or ends at an arm at the site of a statement's test.
pub fn programs_stand_apart()
    ensures { (p : Program) → AreDense p → ChoicesStandApart p → TestsStandApart p → StandsApart p }
{}
