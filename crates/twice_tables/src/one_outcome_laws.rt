ghost use Rattle.twice_tables.specs.OneOutcome.{HasOneOutcome};

use names_literals::literal_laws;
use twice_terms::alike_laws;

/// A program with its configuration comes to one refusal, or to specifications that differ by the numbers of definitions alone.
pub fn outcome_laws()
    ensures one { HasOneOutcome }
{
    alike_laws();
    literal_laws();
}
