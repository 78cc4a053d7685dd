//! What the front of a file says of all of it. The function does nothing: its contract is the law.

ghost use Rattle.wy_page.specs.Opening.{FrontsBeginTraces};

use law_reading::heads_are_spelled;

/// A file from whose front the head of a trace is read begins with the magic and the frame of this head, and the place
/// behind it is as far as these are long: where it is short enough for a trace, it may be opened by this head.
pub fn fronts_begin_traces()
    ensures { FrontsBeginTraces }
{
    heads_are_spelled();
}
