ghost use Rattle.names_resolved_laws.specs.Pruning.{LeftIsWellFormed, SpelledIsWellFormed};

use names_pruning::needed_laws;
use names_tlc_calls::spelling_laws;

/// What is left of a program that is well formed is so too.
pub fn left_is_well_formed()
    ensures { LeftIsWellFormed }
{
    needed_laws();
}

/// A program that is well formed is so with calls of TLC's operators spelled out.
pub fn spelled_is_well_formed()
    ensures { SpelledIsWellFormed }
{
    spelling_laws();
}
