//! What holds of all groups.
ghost use Rattle.wy_fold.specs.Laws.{CountsAddUp, EachLineHasItsGroup};

/// A line has a group exactly where an event stands on it.
pub fn each_line_has_its_group()
    ensures { EachLineHasItsGroup }
{}

/// The groups have all events, each once.
pub fn counts_add_up()
    ensures { CountsAddUp }
{}
