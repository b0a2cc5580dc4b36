ghost use Rattle.reading_trees.specs.LexedEnds.{TokensEndOnce};

/// Of the tokens of a text the last is the End, and no other is, so that their junction lists can be marked.
pub fn tokens_end_once()
    ensures { TokensEndOnce }
{}
