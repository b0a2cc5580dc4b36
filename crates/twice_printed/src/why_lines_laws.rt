ghost use Rattle.twice_printed.specs.WhyLines.{ReportReadsBack, WhyReadsBack};

use crate::state_files_laws::printed_law;
use run_texts::text_laws;
use values_json::json_laws;

/// That the report of a log that is explained in part is read as its behaviour, also where lines behind it tell why, and whatever else is told there.
pub fn why_law()
    ensures why { WhyReadsBack }
    ensures report { ReportReadsBack }
{
    json_laws();
    text_laws();
    printed_law();
}
