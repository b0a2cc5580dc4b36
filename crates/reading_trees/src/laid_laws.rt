//! Laws of the marks of junction lists.

ghost use Rattle.reading_trees.specs.Laid.{OneLaid, OneFault, NeverBoth, AllDecided};
ghost use Rattle.reading_trees.specs.Nests.{LaidNests};

/// Tokens have their junction lists marked in one way, or are refused at one place, and never both.
/// One of the two is so of all tokens that end once.
/// Marked lists nest, and what is inside a list stands right of its bullets.
pub fn laws_of_laid()
    ensures one { OneLaid }
    ensures fault { OneFault }
    ensures never { NeverBoth }
    ensures decided { AllDecided }
    ensures nests { LaidNests }
{}
