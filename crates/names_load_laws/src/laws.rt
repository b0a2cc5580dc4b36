ghost use Rattle.names_load_laws.specs.AnyReading.{LoadedAreWellFormedBy, LoadedHaveFewFilesBy, SpellsFormed};
ghost use Rattle.names_load_laws.specs.Loaded.{ConfigurationsAreSpelled, ConfigurationsHaveOneForm, LoadedAreWellFormed, LoadedHaveFewFiles, PlainHasOneForm, PlainIsSpelled};

use names_specification_laws::form_laws;
use reading_machine::laws_of_extents;
use reading_modules::ModuleReader;
use reading_wide_configuration::givens_are_within_limits_by;

/// A program that `load` accepts is well formed: its trees are those of the grammar, no two variables have one name and no two definitions, and each
/// definition has a name. It has at most 32 files.
pub fn load_laws()
    ensures well_formed { LoadedAreWellFormed }
    ensures few { LoadedHaveFewFiles }
{
    form_laws();
    laws_of_extents();
}

/// The same of what `load_by` accepts, where the reader's modules are well formed.
pub fn load_by_laws<R: ModuleReader>(reader: &R)
    requires { SpellsFormed (R.reading reader.now) }
    ensures well_formed { LoadedAreWellFormedBy (R.reading reader.now) }
    ensures few { LoadedHaveFewFilesBy (R.reading reader.now) }
{
    let _reader = reader;
}

/// What `config_by` accepts, and the configuration that stands where none is read, is as `resolve` asks for: each value is within the limits of values, and
/// there is SPECIFICATION alone, or INIT and NEXT without it.
pub fn configuration_laws()
    ensures spelled { ConfigurationsAreSpelled }
    ensures form { ConfigurationsHaveOneForm }
    ensures plain_spelled { PlainIsSpelled }
    ensures plain_form { PlainHasOneForm }
{
    givens_are_within_limits_by();
}
