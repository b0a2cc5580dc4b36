ghost use Rattle.names_outcome_laws.specs.Levels.{FaultsHaveFirst, ShapesAreDecided, SlotsAreDecided};

/// Over each table, also where definitions use themselves: which slots stand in a term, and which under a prime, what is the first that is wrong with its
/// levels, and whether it gives Init and Next, are decided.
pub fn level_laws()
    ensures slots { SlotsAreDecided }
    ensures faults { FaultsHaveFirst }
    ensures shapes { ShapesAreDecided }
{}
