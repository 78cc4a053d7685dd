//! A law of watch texts. The function does nothing: its contract is the law.

ghost use Rattle.wy_watch.specs.Watch.{OneValue};

use wy_parser::laws::a_token_list_has_one_tree;
use wy_tree::laws::a_text_has_one_token_list;

/// A text has at most one value at a moment.
pub fn a_text_has_one_value()
    ensures { OneValue }
{
    a_text_has_one_token_list();
    a_token_list_has_one_tree();
}
