ghost use Rattle.twice_calls.specs.OwnPlace.{ReadAreTellable};

/// Each line of logs that are read together is told from all others by its place.
pub fn own_place_law()
    ensures { ReadAreTellable }
{}
