//! What holds of what is written of a run's output.
ghost use Rattle.wy_expect.specs.Laws.{OneTextIsDue, SaidOfTheSame};

use wy_whynot::laws::items_are_one;

/// `as expected` is said exactly where the file is what the run printed, or what is written of its output, but for carriage returns and a
/// last line feed.
pub fn as_expected_is_said_of_the_same()
    ensures { SaidOfTheSame }
{}

/// A run, and what a file expects of its output, have one text.
pub fn one_text_is_due()
    ensures { OneTextIsDue }
{
    items_are_one();
}
