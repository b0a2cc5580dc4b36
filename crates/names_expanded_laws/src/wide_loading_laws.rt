ghost use Rattle.std.specs.Prelude.{Bool};
ghost use Rattle.names_load_laws.specs.AnyReading.{LoadedAreWellFormedBy, LoadedHaveFewFilesBy, SpellsFormed};
ghost use Rattle.reading_wide_modules.specs.Wide.{reading_by};

use names_specification_laws::form_laws;
use reading_machine::laws_of_extents;

/// A program that `load_modules` accepts is well formed: what is unread of its modules does not count. It has at most
/// 32 files.
pub fn wide_load_laws()
    ensures spells { (word : Bool) → SpellsFormed (reading_by word) }
    ensures well_formed { (word : Bool) → LoadedAreWellFormedBy (reading_by word) }
    ensures few { (word : Bool) → LoadedHaveFewFilesBy (reading_by word) }
{
    form_laws();
    laws_of_extents();
}
