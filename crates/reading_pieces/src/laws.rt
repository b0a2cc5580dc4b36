//! The laws of pieces.

ghost use Rattle.reading_pieces.specs.Laws.{OneHeading, OneParting};

/// Tokens have one heading, and are parted into pieces in one way.
pub fn one_parting()
    ensures heading { OneHeading }
    ensures pieces { OneParting }
{}
