//! Laws of configurations, with what they say of a search passed over and without.

ghost use Rattle.reading_wide_configuration.specs.Laws.{GivensAreWithinLimits, NothingIsPassed, OneConfiguration, SomeConfiguration, StatementsArePassed, StrictIsWide};

use reading_configuration::{givens_are_within_limits, one_configuration};
use reading_tokens::one_outcome;
use reading_trees::tokens_end_once;

/// Each text has exactly one outcome, with the word and without it; and what is accepted without the word is the same with it.
pub fn one_configuration_by()
    ensures one { OneConfiguration }
    ensures some { SomeConfiguration }
    ensures strict { StrictIsWide }
{
    one_outcome();
    one_configuration();
    tokens_end_once();
}

/// What an accepted configuration writes is within the limits of values.
pub fn givens_are_within_limits_by()
    ensures { GivensAreWithinLimits }
{
    givens_are_within_limits();
}

/// Where no word stands that says something of a search nothing is passed over; and a statement of such a word is passed over as a whole.
pub fn laws_of_passing()
    ensures nothing { NothingIsPassed }
    ensures whole { StatementsArePassed }
{}
