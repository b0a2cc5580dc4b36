ghost use Rattle.reading_laws.specs.AnyReading.{FlatteningMayStopBy, LoadingMayStopBy, NothingRepeatsBy, OneFlatteningBy, OneLoadingBy, OneProgramBy};
ghost use Rattle.reading_laws.specs.OneReading.{FlatteningMayStop, LoadingMayStop, NoConfigurationRefused, NothingRepeats, OneConfiguration, OneFlattening, OneLoading, OnePath, OneProgram, OneText};
ghost use Rattle.reading_laws.specs.Readings.{IsReading};
ghost use Rattle.reading_modules.specs.Refusals.{strict};

use reading_modules::ModuleReader;
use reading_tokens::one_outcome;
use reading_trees::laws_of_laid;
use reading_units::{one_module, shallow_not_refused};
use reading_wide_configuration::one_configuration_by;

/// Read strictly, a text spells one module, and one that spells a module is not refused.
pub fn strict_laws()
    ensures { IsReading strict }
{
    one_outcome();
    laws_of_laid();
    one_module();
    shallow_not_refused();
}

/// Where a text spells one module and is not refused beside it, files that tell give one list of modules, and one program with the same notes;
/// and their reading is refused beside it only where a read failed.
pub fn reader_laws<R: ModuleReader>(reader: &R)
    requires { IsReading (R.reading reader.now) }
    ensures flattening { OneFlatteningBy (R.reading reader.now) }
    ensures program { OneProgramBy (R.reading reader.now) }
    ensures loading { OneLoadingBy (R.reading reader.now) }
    ensures may_stop { FlatteningMayStopBy (R.reading reader.now) }
    ensures repeats { NothingRepeatsBy (R.reading reader.now) }
    ensures loading_may_stop { LoadingMayStopBy (R.reading reader.now) }
{
    let _reader = reader;
}

/// A path names one folder and one main module. Files that tell have one text of each name, and give one list of modules, one program of a
/// main module and one of a path. A text gives one configuration.
pub fn one_program_laws()
    ensures path { OnePath }
    ensures text { OneText }
    ensures flattening { OneFlattening }
    ensures program { OneProgram }
    ensures loading { OneLoading }
    ensures configuration { OneConfiguration }
{
    strict_laws();
    one_configuration_by();
}

/// Where files that tell give a program, its reading is refused only where a read failed. A text that gives a configuration is not refused.
pub fn no_refusal_laws()
    ensures flattening { FlatteningMayStop }
    ensures repeats { NothingRepeats }
    ensures loading { LoadingMayStop }
    ensures configuration { NoConfigurationRefused }
{
    strict_laws();
    one_configuration_by();
}
