//! Laws of what the word changes.

ghost use Rattle.names_specification.specs.Laws.{AcceptedIsSame, RefusedIsSame};

/// What is accepted without the word is the same with it, and what is refused with the word is refused the same without it.
pub fn resolving_laws()
    ensures accepted { AcceptedIsSame }
    ensures refused { RefusedIsSame }
{}
