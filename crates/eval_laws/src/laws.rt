ghost use Rattle.eval_meanings.specs.Laws.{GivesOnlyValues, HasOneDescription, HasOneOutcome, KeepsOutcome};
ghost use Rattle.eval_laws.specs.Laws.{KeepsDescription};

/// A term has at most one outcome in given states, and at most one description.
pub fn outcome_laws()
    ensures outcome { HasOneOutcome }
    ensures description { HasOneDescription }
{}

/// What a term evaluates to is a value.
pub fn value_law()
    ensures { GivesOnlyValues }
{}

/// A term keeps its outcome, and its description, where more values are known.
pub fn knowledge_laws()
    ensures outcome { KeepsOutcome }
    ensures description { KeepsDescription }
{}
