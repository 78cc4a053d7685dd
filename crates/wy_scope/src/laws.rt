//! What follows from the definitions alone.

ghost use Rattle.wy_scope.specs.Laws.{ItemsAreACut, ItemsAreOne};

/// No way between regions to a statement that was not passed goes round its items.
pub fn items_are_a_cut()
    ensures { ItemsAreACut }
{}

/// A statement has one list of items in a call.
pub fn items_are_one()
    ensures { ItemsAreOne }
{}
