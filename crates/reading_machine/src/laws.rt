//! What holds of reading expressions, proved with no code.

ghost use Rattle.reading_machine.specs.Laws.{ReadSpells, DefinitionSpells};

/// What is read of laid tokens is spelled so, from the first token up to the one before which it ends.
/// The same is so of a unit's definition.
pub fn laws_of_reading()
    ensures spelled { ReadSpells }
    ensures defined { DefinitionSpells }
{}
