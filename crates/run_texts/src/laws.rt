ghost use Rattle.run_texts.specs.Spelled.{ForeignIsSpelled};
ghost use Rattle.run_texts.specs.Ordered.{OrderAscends};

/// That a token outside the profile is written as it is read, and that the names of a state's fields ascend, with
/// each variable's once.
pub fn text_laws()
    ensures spelled { ForeignIsSpelled }
    ensures ascending { OrderAscends }
{}
