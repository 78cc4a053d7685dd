//! What follows from the definitions alone.

ghost use Rattle.wy_whynot.specs.Laws.{ItemsAreACut, ItemsAreOne, NoneWhereNoChain};

/// No way to a statement that never began goes round its items.
pub fn items_are_a_cut()
    ensures { ItemsAreACut }
{}

/// Where there are no items, no call leads to the statement.
pub fn none_where_no_chain()
    ensures { NoneWhereNoChain }
{}

/// A statement has one list of items.
pub fn items_are_one()
    ensures { ItemsAreOne }
{}
