ghost use Rattle.names_expanded_laws.specs.Expansion.{ExpandedAreWellFormed};

use crate::wide_loading_laws::wide_load_laws;
use names_specification_laws::form_laws;
use reading_machine::laws_of_extents;

/// A program that `load_modules` accepts is well formed when it has what its instances make, as it is alone: its trees are those of the grammar, no two
/// variables have one name and no two definitions, and each definition has a name.
pub fn expanded_laws()
    ensures well_formed { ExpandedAreWellFormed }
{
    form_laws();
    laws_of_extents();
    wide_load_laws();
}
