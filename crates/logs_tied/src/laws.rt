ghost use Rattle.logs_tied.specs.Laws.{NameOneOrder, UnreadyIsWrong};
ghost use Rattle.logs_tied.specs.Naming.{NamingEnds, NamingGoesOn};

/// Of the order that the marks of states name.
pub fn mark_laws()
    ensures one { NameOneOrder }
    ensures wrong { UnreadyIsWrong }
{}

/// Of an order that is named line by line.
pub fn naming_laws()
    ensures goes_on { NamingGoesOn }
    ensures ends { NamingEnds }
{}
