//! The laws of laid tokens and the modules that they spell.

ghost use Rattle.reading_units.specs.LawsOfModules.{OneModule, ShallowNotRefused};

use reading_machine::{laws_of_extents, laws_of_refusals, laws_of_trees};

/// Laid tokens spell one module.
pub fn one_module()
    ensures { OneModule }
{
    laws_of_trees();
    laws_of_extents();
    laws_of_refusals();
}

/// Where each token of a module stands inside few enough unfinished constructs, none is refused because it stands
/// inside too many.
pub fn shallow_not_refused()
    ensures { ShallowNotRefused }
{
    laws_of_extents();
    laws_of_refusals();
}
