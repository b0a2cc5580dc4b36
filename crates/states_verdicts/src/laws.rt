ghost use Rattle.states_verdicts.specs.Laws.{FoundIsValid, HaveOne, CleanRun};

use crate::pairs::Pairs;

/// A behaviour of all lines is valid where nothing faults on the way that a search goes.
pub fn found_law<P: Pairs>(_pairs: &P)
    ensures { FoundIsValid (P.asks _pairs.now) }
{}

/// A list has one verdict, but for which of several faults of a state is named.
pub fn one_law<P: Pairs>(_pairs: &P)
    ensures { HaveOne (P.asks _pairs.now) }
{}

/// States that are clean, each behind the one before it, are a run.
pub fn clean_law<P: Pairs>(_pairs: &P)
    ensures { CleanRun (P.asks _pairs.now) }
{}
