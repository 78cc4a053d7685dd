//! What follows from the definitions alone.

ghost use Rattle.wy_explore.specs.Session.{OneReply};

use wy_watch::a_text_has_one_value;
use wy_whynot::laws::items_are_one;

/// A line has one reply, and leaves one session.
pub fn one_reply()
    ensures { OneReply }
{
    items_are_one();
    a_text_has_one_value();
}
