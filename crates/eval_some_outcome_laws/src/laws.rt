ghost use Rattle.eval_some_outcome_laws.specs.Laws.{HasSomeDescription, HasSomeListing, HasSomeOutcome};

/// A sound set of values is listed, or refused for what it is: want of memory is no outcome.
pub fn listing_law()
    ensures { HasSomeListing }
{}

/// A term that can be read has an outcome, and a description.
pub fn some_laws()
    ensures outcome { HasSomeOutcome }
    ensures description { HasSomeDescription }
{}
