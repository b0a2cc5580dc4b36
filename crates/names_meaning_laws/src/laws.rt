ghost use Rattle.names_meaning_laws.specs.Laws.{FineStaysFine, FineNamesAreKnown, MentionedNamesDecide, MeaningsStay, MeansByNames};

/// Of more names no more is wrong, and what a tree means it goes on to mean. What is wrong with a tree depends on the names that it
/// mentions, and where nothing is wrong each of these means something, and the tree means what it means by them alone.
pub fn name_laws()
    ensures fine { FineStaysFine }
    ensures known { FineNamesAreKnown }
    ensures decided { MentionedNamesDecide }
    ensures meanings { MeaningsStay }
    ensures free { MeansByNames }
{}
