ghost use Rattle.twice_printed.specs.StateFiles.{StatesReadBack, ExplainedReadsBack, NotExplainedReadsBack, AsidesReadBack};

use run_texts::text_laws;
use values_json::json_laws;

/// That states that are printed are read again as the same states: from their lines alone, and from
/// the report of a log that is explained, or explained in part, with lines behind it that are no states.
pub fn printed_law()
    ensures states { StatesReadBack }
    ensures explained { ExplainedReadsBack }
    ensures not_explained { NotExplainedReadsBack }
    ensures asides { AsidesReadBack }
{
    json_laws();
    text_laws();
}
