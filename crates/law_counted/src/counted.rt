//! The covers of a run: what they count of each statement is what the run did.

ghost use Rattle.wy_kernel.specs.Program.{Program};
ghost use Rattle.wy_steps.specs.Sets.{nothing, numbers};
ghost use Rattle.law_counted.specs.Counted.{AtTheEnd, Balances, EachBeginTakesAStep, EachStartCountsOnce, ExpressionsAddWhatTheyCount, GoesOnOnlyAtAStop, NothingCountsWithoutAStep, StatementsAddWhatTheyCount};

/// At the end of every run a statement ended normally as often as it began exactly where
/// nothing ever left it; one is still going on only where the run was stopped; and all
/// statements together began at most as often as the run took steps.
pub fn covers_balance()
    ensures balance { (p : Program) → AtTheEnd nothing p Balances }
    ensures balance_carrying { (p : Program) → AtTheEnd numbers p Balances }
    ensures going_on { (p : Program) → AtTheEnd nothing p GoesOnOnlyAtAStop }
    ensures going_on_carrying { (p : Program) → AtTheEnd numbers p GoesOnOnlyAtAStop }
    ensures steps { (p : Program) → EachBeginTakesAStep nothing p }
    ensures steps_carrying { (p : Program) → EachBeginTakesAStep numbers p }
{}

/// Each time that a statement starts it counts one begin, at the number of the events that
/// there are then, and one end exactly if it ends normally; what left it last is what left it
/// now, if anything did. Besides, what stands in it counts; without a step for its start
/// nothing does. What a statement or an expression counts is added to what was counted before,
/// whatever that was.
pub fn each_start_counts_once()
    ensures once { (p : Program) → EachStartCountsOnce nothing p }
    ensures once_carrying { (p : Program) → EachStartCountsOnce numbers p }
    ensures unstarted { (p : Program) → NothingCountsWithoutAStep nothing p }
    ensures unstarted_carrying { (p : Program) → NothingCountsWithoutAStep numbers p }
    ensures statements { (p : Program) → StatementsAddWhatTheyCount nothing p }
    ensures statements_carrying { (p : Program) → StatementsAddWhatTheyCount numbers p }
    ensures expressions { (p : Program) → ExpressionsAddWhatTheyCount nothing p }
    ensures expressions_carrying { (p : Program) → ExpressionsAddWhatTheyCount numbers p }
{}
