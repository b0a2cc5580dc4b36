ghost use Rattle.base_cuts.specs.Extensions.{AreExtensions};
ghost use Rattle.base_cuts.specs.Laws.{AllowedAreWhole, AllowedByClock, MergedIsMade, OneCut, ReadyByClock, ReadyByVectors, ReadyGoesOn, ReadyInSequence, ReadyIsNext, SomeAllowed, SomeIsReady, TakenBegins};

/// Of which lines are ready at a cut, and which are taken one after the other.
pub fn cut_laws()
    ensures some { SomeAllowed }
    ensures whole { AllowedAreWhole }
    ensures goes_on { ReadyGoesOn }
    ensures taken { TakenBegins }
    ensures next { ReadyIsNext }
    ensures left { SomeIsReady }
    ensures by_clock { ReadyByClock }
{}

/// Of one sequence.
pub fn sequence_laws()
    ensures ready { ReadyInSequence }
    ensures one { OneCut }
{}

/// Of the orders of logs by vectors.
pub fn vector_laws()
    ensures ready { ReadyByVectors }
    ensures extend { AreExtensions }
{}

/// Of the orders of logs by clock.
pub fn merge_laws()
    ensures by_clock { AllowedByClock }
    ensures merged { MergedIsMade }
{}
