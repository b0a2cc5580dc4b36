ghost use Rattle.reading_units.specs.LaidEnds.{MarkedEndsOnce};

/// Of tokens with their junction lists marked the last is the End, and no other is, so that they can be read as a module.
pub fn laid_ends_once()
    ensures { MarkedEndsOnce }
{}
