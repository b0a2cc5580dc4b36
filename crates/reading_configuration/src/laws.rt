//! Laws of what a configuration's text gives.

ghost use Rattle.reading_configuration.specs.Limits.{GivensAreWithinLimits};
ghost use Rattle.reading_configuration.specs.Reads.{OneConfiguration, SomeConfiguration};

use reading_tokens::one_outcome;
use reading_trees::tokens_end_once;

/// Each text has exactly one outcome: its configuration, or why and where it has none.
pub fn one_configuration()
    ensures one { OneConfiguration }
    ensures some { SomeConfiguration }
{
    one_outcome();
    tokens_end_once();
}

/// What an accepted configuration writes is within the limits of values.
pub fn givens_are_within_limits()
    ensures { GivensAreWithinLimits }
{}
