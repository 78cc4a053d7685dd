//! What follows from the definitions alone.
ghost use Rattle.wy_session.specs.Laws.{OneTalk};

use wy_explore::laws::one_reply;

/// An input has one session over a trace.
pub fn one_talk()
    ensures { OneTalk }
{
    one_reply();
}
