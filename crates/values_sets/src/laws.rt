//! What follows from the definitions.

ghost use Rattle.values_sets.specs.OneOutcome.{ListsOneWay};

/// That a set is listed in one way: as one value, or with one fault, want of memory apart.
pub fn outcome_law()
    ensures { ListsOneWay }
{}
