//! Laws of where the reader stops, proved with no code.

ghost use Rattle.reading_machine.specs.LawsOfRefusals.{StoppedBegun, ClashedBegun, EndsBegun, StoppedThere, EndsThere, ClashedThere, RanBegun, RanFits, ClashedMeets};

/// What is read before the reader stops is the beginning of a text, and no text goes on through the token at which it stops.
/// The same is so where an expression has ended.
/// Where the ranges of two operators meet, a text without ranges goes on through the token at which that shows, and no text
/// with them does. Where all tokens are read, they are the beginning of a text.
pub fn laws_of_refusals()
    ensures stopped { StoppedBegun }
    ensures clashed { ClashedBegun }
    ensures ends { EndsBegun }
    ensures stopped_there { StoppedThere }
    ensures ends_there { EndsThere }
    ensures clashed_there { ClashedThere }
    ensures ran { RanBegun }
    ensures ran_fits { RanFits }
    ensures meets { ClashedMeets }
{}
