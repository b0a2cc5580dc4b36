ghost use Rattle.twice_terms.specs.Laws.{AlikeHaveSameParts, AlikeTellSame, AreAny, AreOne, FirstFaultIsOne, ShapeIsOne};

/// Of terms that differ by the numbers of definitions alone the same is told: places, levels, slots, faults, fairness and shape. It is said for
/// values of constants that are the same, and for any.
pub fn alike_laws()
    ensures same { AlikeTellSame AreOne }
    ensures same_for_any { AlikeTellSame AreAny }
    ensures parts { AlikeHaveSameParts AreOne }
    ensures parts_for_any { AlikeHaveSameParts AreAny }
    ensures one_first_fault { FirstFaultIsOne }
    ensures one_shape { ShapeIsOne }
{}
