//! What holds of where two runs part.
ghost use Rattle.wy_compare.specs.Laws.{OneTextIsDue, SameAnswersBelow, ValuesPartFirst};

/// Paths part where values have parted, or later.
pub fn values_part_first()
    ensures { ValuesPartFirst }
{}

/// Below the place at which the values part, both runs give the same answers.
pub fn answers_below_are_the_same()
    ensures { SameAnswersBelow }
{}

/// Of two runs one text is due.
pub fn one_text_is_due()
    ensures { OneTextIsDue }
{}
