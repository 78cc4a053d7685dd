//! What follows from the definitions alone.

ghost use Rattle.wy_telling.specs.Answers.{OneAnswerToQuestions};
ghost use Rattle.wy_telling.specs.Scoped.{OneAnswerToScope};
ghost use Rattle.wy_telling.specs.Whynot.{OneAnswerToWhynot};

use wy_scope::laws::items_are_one as scoped_items_are_one;
use wy_whynot::laws::items_are_one;

/// A question has one answer, whatever is told of the event that it asks about.
pub fn one_answer_to_questions()
    ensures { OneAnswerToQuestions }
{}

/// A word has one answer.
pub fn one_answer_to_whynot()
    ensures { OneAnswerToWhynot }
{
    items_are_one();
}

/// A word and a call have one answer.
pub fn one_answer_to_scope()
    ensures { OneAnswerToScope }
{
    scoped_items_are_one();
}
