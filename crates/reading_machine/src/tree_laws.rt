//! Laws of texts and the syntax trees that they spell.

ghost use Rattle.reading_trees.specs.Fits.{OneTree};
ghost use Rattle.reading_machine.specs.LawsOfTrees.{SpelledRead, DefinitionRead, OneTreeBetween};

/// An expression that is spelled up to a name, a word, dashes, equals signs or the end of the module is read up to
/// there, and so is a definition of a unit.
/// A text spells one tree, and so do the laid tokens from one point of a text to another.
pub fn laws_of_trees()
    ensures read { SpelledRead }
    ensures defined { DefinitionRead }
    ensures one { OneTree }
    ensures between { OneTreeBetween }
{}
