//! The laws of reading modules in pieces.

ghost use Rattle.reading_wide_modules.specs.Laws.{NothingRepeatsWide, OneWide, OneWideLoading, OneWideProgram, StrictIsWide, WideFlatteningMayStop, WideIsNotRefused, WideIsReading, WideLoadingMayStop};

use reading_pieces::one_parting;
use reading_tokens::one_outcome;
use reading_trees::laws_of_laid;
use reading_units::{one_module, shallow_not_refused};

/// What is read without pieces is read so. Bytes are read as one module with the same pieces unread, and are not refused beside it.
pub fn wide_laws()
    ensures strict { StrictIsWide }
    ensures never { WideIsNotRefused }
    ensures one { OneWide }
{
    one_outcome();
    laws_of_laid();
    one_module();
    shallow_not_refused();
    one_parting();
}

/// So files that tell give one program, with the same pieces unread, and its reading is refused beside it only where a read failed.
pub fn wide_program_laws()
    ensures reading { WideIsReading }
    ensures program { OneWideProgram }
    ensures loading { OneWideLoading }
    ensures may_stop { WideLoadingMayStop }
    ensures flattening { WideFlatteningMayStop }
    ensures never_twice { NothingRepeatsWide }
{
    wide_laws();
    one_outcome();
    laws_of_laid();
    one_module();
    shallow_not_refused();
}
