ghost use Rattle.twice_outcomes.specs.Outcomes.{BehindAlike, DescribesAlike, EvaluatesAlike};

/// Terms that differ by the numbers of definitions alone evaluate to the same and describe the same, each over its table, and behind their names
/// stand terms that differ so.
pub fn alike_outcome_laws()
    ensures evaluates { EvaluatesAlike }
    ensures describes { DescribesAlike }
    ensures behind { BehindAlike }
{}
