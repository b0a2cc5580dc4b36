ghost use Rattle.names_literals.specs.Spells.{SpellsOneValue};

/// That no literal spells two values.
pub fn literal_laws()
    ensures { SpellsOneValue }
{}
