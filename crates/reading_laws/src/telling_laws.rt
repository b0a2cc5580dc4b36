ghost use Rattle.reading_laws.specs.Telling.{UncheckedAreLines};

/// No line feed stands in what an accepted configuration leaves unchecked.
pub fn unchecked_law()
    ensures { UncheckedAreLines }
{}
