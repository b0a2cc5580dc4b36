//! The law of least levels.

ghost use Rattle.names_least_levels.specs.Laws.{AllHaveLeast};

/// Every program has least levels, which are found from no mark on, and no others.
pub fn levels_are_least()
    ensures { AllHaveLeast }
{}
