ghost use Rattle.twice_calls.specs.Checks.{CallChecksAfter};
ghost use Rattle.twice_calls.specs.Library.{AcceptedStays, GivenStays, LibraryIsUnseen, OneFolder, UnaskedOwnAreUnseen};

use crate::run_laws::check_law;
use crate::unseen_laws::unseen_law;
use run_words::one_command;
use twice_readings::{not_refused_laws, strict_stays_wide};

/// The library stands in one folder or in none. What is read without it is read so with it behind the files; so what a call reads without the word `--wide` it reads
/// with it. And files that the words do not ask for are not seen.
pub fn call_laws()
    ensures folder { OneFolder }
    ensures library { LibraryIsUnseen }
    ensures stays { AcceptedStays }
    ensures given { GivenStays }
    ensures unseen { UnaskedOwnAreUnseen }
{
    one_command();
    unseen_law();
    not_refused_laws();
    strict_stays_wide();
}

/// Where a call of `validate` ends with status 0, its report tells EXPLAINED, and each call of `check` on it ends with VALID, but for want of memory and devices that fail.
pub fn call_check_law()
    ensures { CallChecksAfter }
{
    one_command();
    check_law();
}
