ghost use Rattle.reading_laws.specs.GivenPlaces.{GivensStandBehind};

/// Each name for which a configuration gives something, and each that it puts in place of another, stands in its text at the place that is kept. Its file
/// is the one behind those of the modules.
pub fn given_places_law()
    ensures { GivensStandBehind }
{}
