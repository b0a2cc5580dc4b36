//! What follows from the definitions.

ghost use Rattle.values_set_bounds.specs.Bounds.{ListsForSure};

/// That a set within bounds is listed as one value, and has no fault but want of memory.
pub fn sure_law()
    ensures { ListsForSure }
{}
