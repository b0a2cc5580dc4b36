//! Laws of how far texts go, proved with no code.

ghost use Rattle.reading_machine.specs.LawsOfExtents.{LocalText, LocalDefinition, NoneFollows, NoneFollowsDefinition, NoMarkInside, NoMarkInsideDefinition};

/// The text of an expression lies in its own tokens, and so does that of a unit's definition. Neither goes on through a
/// token that ends it. Neither holds dashes, equals signs or the end of the module.
pub fn laws_of_extents()
    ensures local { LocalText }
    ensures local_definition { LocalDefinition }
    ensures none { NoneFollows }
    ensures none_definition { NoneFollowsDefinition }
    ensures marks { NoMarkInside }
    ensures marks_definition { NoMarkInsideDefinition }
{}
