//! Laws of where the reader of a unit's definition stops, proved with no code.

ghost use Rattle.reading_machine.specs.LawsOfDefinitions.{DefinitionStoppedBegun, DefinitionClashedBegun, DefinitionEndsBegun, DefinitionStoppedThere, DefinitionEndsThere, DefinitionClashedThere, DefinitionRanBegun};

/// What is read of a unit's definition before the reader stops is the beginning of one, and none goes on through the token
/// at which it stops. The same is so where a definition has ended.
/// Where the ranges of two operators meet, a definition without ranges goes on through the token at which that shows, and
/// none with them does. Where all tokens are read, they are the beginning of a definition.
pub fn laws_of_definitions()
    ensures stopped { DefinitionStoppedBegun }
    ensures clashed { DefinitionClashedBegun }
    ensures ends { DefinitionEndsBegun }
    ensures stopped_there { DefinitionStoppedThere }
    ensures ends_there { DefinitionEndsThere }
    ensures clashed_there { DefinitionClashedThere }
    ensures ran { DefinitionRanBegun }
{}
